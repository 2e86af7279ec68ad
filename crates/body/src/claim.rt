// A claim of label numbers.
ghost use Rattle.std.specs.Prelude.{◌≡◌, true};
ghost use Rattle.body.specs.Ranges.{claim_ok};

// A claim of the next `count` numbers of a series: series 0 to 15, count 1 to 1,000,000.
#[derive(Clone, Copy, PartialEq, Eq, Debug)]
pub struct NumberClaim {
    pub series: u32,
    pub count: u32,
    ghost ok: { claim_ok series count ≡ true },
}

// A claim as a plain row.
#[derive(Clone, Copy, PartialEq, Eq, Debug)]
pub struct ClaimRow {
    pub series: u32,
    pub count: u32,
}
