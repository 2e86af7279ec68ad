// Who of a hall is active, passive or removed, and how records change it.
#![tactic(auto)]

mod asking;
mod changing;
mod delays;
mod nearest;
mod seats;

pub use delays::Delays;
pub use seats::{Configuration, Rank, RecordKind, Seat};

// What a record and a row of delays speak of.
pub use frame::{PrinterCount, PrinterNumber};
