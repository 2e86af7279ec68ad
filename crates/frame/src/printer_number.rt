// The number of a printer in its hall, and how many printers a hall has.
ghost use Rattle.std.specs.Prelude.{◌≡◌, ◌<◌, true};
ghost use Rattle.frame.specs.Ranges.{is_printer};

// A printer's number, 0 to 7.
#[derive(Clone, Copy, PartialEq, Eq, Debug)]
pub struct PrinterNumber {
    pub value: u32,
    ghost ok: { is_printer value ≡ true },
}

impl PrinterNumber {
    // Where a row with a place for each printer has this one's.
    pub fn index(self) -> usize
        ensures { result ≡ self.value }
    {
        self.value as usize
    }
}

// How many printers a hall has: at most 8. Their numbers are those below it.
#[derive(Clone, Copy, PartialEq, Eq, Debug)]
pub struct PrinterCount {
    pub value: u32,
    ghost few: { value < 9 },
}
