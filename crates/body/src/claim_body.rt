// Making a claim, and a claim as words and as a row.
ghost use Rattle.std.specs.Prelude.{◌≡◌};
ghost use Rattle.std.specs.Option.{ok_or};
ghost use Rattle.body.specs.Faults.{unfit};
ghost use Rattle.body.specs.Ranges.{claim_ok};
ghost use Rattle.body.specs.Claims.{claim_of, claim_words, claim_allows, claim_rebuilt, claim_row, claim_remade};
ghost use Rattle.body.specs.ClaimsLemmas.{claim_written, claim_of_self, claim_plain};
ghost use Rattle.std.proofs.Common.{rules};

use crate::claim::{ClaimRow, NumberClaim};
use crate::faults::{UNFIT, WireFault};
use crate::kind::Body;

fn claim_fits(series: u32, count: u32) -> bool
    ensures { result ≡ claim_ok series count }
{
    series < 16 && 1 <= count && count <= 1_000_000
}

impl NumberClaim {
    pub fn new(series: u32, count: u32) -> Result<NumberClaim, WireFault>
        ensures { result ≡ ok_or (claim_of series count) unfit }
    {
        if claim_fits(series, count) {
            Ok(NumberClaim { series, count })
        } else {
            Err(UNFIT)
        }
    }
}

impl Body for NumberClaim {
    type Row = ClaimRow;

    ghost count = { 2 };

    ghost words = { claim_words };

    ghost allows = { claim_allows };

    ghost rebuilt = { claim_rebuilt };

    ghost row = { claim_row };

    ghost remade = { claim_remade };

    ghost few = { Prim.search rules };

    ghost counted = { Prim.search rules };

    ghost ranged = { Prim.search rules };

    ghost written = { claim_written };

    ghost rebuilding = { claim_of_self };

    ghost remaking = { claim_of_self };

    ghost plain = { claim_plain };

    fn word_count() -> usize {
        2
    }

    fn word(self, i: usize) -> u32 {
        match i {
            0 => self.series,
            1 => self.count,
            _ => 0,
        }
    }

    fn in_range(before: &[u32], word: u32) -> bool {
        match before {
            [] => word < 16,
            [_] => 1 <= word && word <= 1_000_000,
            _ => false,
        }
    }

    fn from_words(given: &[u32]) -> Option<NumberClaim> {
        match *given {
            [series, count] => NumberClaim::new(series, count).ok(),
            _ => None,
        }
    }

    fn to_row(self) -> ClaimRow {
        ClaimRow {
            series: self.series,
            count: self.count,
        }
    }

    fn from_row(given: ClaimRow) -> Option<NumberClaim> {
        NumberClaim::new(given.series, given.count).ok()
    }
}
