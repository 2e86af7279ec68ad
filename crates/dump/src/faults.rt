// The faults of a line, and how the want of memory becomes one.
ghost use Rattle.std.specs.Prelude.{◌≡◌};
ghost use Rattle.dump.specs.declared.faults.LineFault.TheVariants.{Memory};

use std::alloc::{AllocError, AllocFailed};

// Why a line gives no block.
#[derive(Clone, Copy, PartialEq, Eq, Debug)]
pub enum LineFault {
    // the line is not a body kind with a block in hex
    NotHex,
    // there is no memory for the block
    Memory,
}

impl From<AllocError> for LineFault {
    ghost from_gives = { λ _ r. r ≡ Memory };

    fn from(_e: AllocError) -> LineFault {
        LineFault::Memory
    }
}

impl<T: Drop> From<AllocFailed<T>> for LineFault {
    ghost from_gives = { λ _ r. r ≡ Memory };

    fn from(_e: AllocFailed<T>) -> LineFault {
        LineFault::Memory
    }
}
