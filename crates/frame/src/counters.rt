// Three counters of 32 bits, each a type of its own: one never stands where another is meant.

// The number of a message among those of its sender, from 1; 0 stands for none yet.
#[derive(Clone, Copy, PartialEq, Eq, PartialOrd, Ord, Debug)]
pub struct MessageNumber(pub u32);

// The number of a ticket. A printer's clock is the highest ticket number that it knows of.
#[derive(Clone, Copy, PartialEq, Eq, PartialOrd, Ord, Debug)]
pub struct TicketNumber(pub u32);

// How often a printer has switched between active and passive.
#[derive(Clone, Copy, PartialEq, Eq, PartialOrd, Ord, Debug)]
pub struct RoleNumber(pub u32);
