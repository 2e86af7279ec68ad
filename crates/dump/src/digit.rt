// A hex digit.
ghost use Rattle.std.specs.Prelude.{◌≡◌, ◌<◌};
ghost use Rattle.std.specs.Option.{option_map};
ghost use Rattle.dump.specs.Hex.{digit_value};

// What a hex digit stands for.
#[derive(Clone, Copy)]
pub(crate) struct Digit {
    pub(crate) value: u8,
    ghost small: { value < 16 },
}

impl Digit {
    // The digit that a character of either case is.
    pub(crate) fn from_char(c: u8) -> Option<Digit>
        ensures { option_map (λ d. d.value) result ≡ digit_value c }
    {
        let value = char::from(c).to_digit(16)?;
        Some(Digit { value: value as u8 })
    }
}
