// What a printer does by itself, over any transport.
#![tactic(auto)]

mod changing;
mod leaving;
mod making;
mod opening;
mod posting;
mod printer;
mod refusing;
mod shelving;
mod taking;
mod transmitting;

pub use printer::Printer;
pub use refusals::{PrinterFault, PrinterRefusal};

// What the steps of a printer speak of, so that a program needs only this crate.
pub use frame::{PrinterCount, PrinterNumber, TicketNumber};
pub use roles::{Configuration, Delays, Rank, RecordKind, Seat};
pub use table::{Due, PrinterState, PrinterTable, Record};
