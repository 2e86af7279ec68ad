// What a list and a configuration say of a printer.
use frame::RoleNumber;

// What a record in a list tells. The first three are the kinds of messages.
#[derive(Clone, Copy, PartialEq, Eq, Debug)]
pub enum RecordKind {
    // a message with a body
    Data,
    // a message by which its sender becomes active
    Up,
    // a message by which its sender becomes passive
    Down,
    // a printer has left the hall
    Gone,
}

#[derive(Clone, Copy, PartialEq, Eq, Debug)]
pub enum Rank {
    // the printer has left the hall
    Removed,
    // the printer issues tickets
    Active,
    // the printer has an active one as its sequencer
    Passive,
}

// A printer's rank, and the role number under which it has it.
#[derive(Clone, Copy, PartialEq, Eq)]
pub struct Seat {
    pub rank: Rank,
    pub role: RoleNumber,
}

// What is known of every printer of the hall: a seat for each number that a printer can have, in fixed memory. Seats of
// numbers that the hall does not have are never looked at.
#[derive(Clone, Copy)]
pub struct Configuration {
    pub seats: [Seat; 8],
}
