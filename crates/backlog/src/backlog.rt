// All that a printer holds.
use crate::rows::{MessageRow, TicketRow};

// The messages held of each sender, and the tickets held of each issuer: a row for each number that a printer can have,
// in fixed memory.
#[derive(Clone, Copy)]
pub struct Backlog {
    pub messages: [MessageRow; 8],
    pub tickets: [TicketRow; 8],
}
