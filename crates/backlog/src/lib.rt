// What a printer holds until it can be delivered: messages and tickets.
#![tactic(auto)]

mod backlog;
mod counting;
mod holding;
mod rows;
mod storing;
mod tickets;
mod wanted;

pub use backlog::Backlog;
pub use rows::{Held, MessageRow, Row, Stub, Ticket, TicketRow};
