// A printer's own part in issuing tickets.
use frame::RoleNumber;

#[derive(Clone, Copy, PartialEq, Eq, Debug)]
pub enum PrinterState {
    Active,
    Passive,
    // it has sent an up that is not delivered yet
    Rising,
    // it has sent a down that is not delivered yet
    Falling,
}

#[derive(Clone, Copy)]
pub struct Duty {
    pub state: PrinterState,
    // the printer that is to ticket its messages, with that printer's role number
    pub sequencer: (u32, RoleNumber),
    // whether it has to tell the others that its messages have another sequencer
    pub owes: bool,
    // the sender that is tried first for the next ticket: the one after the last ticketed
    pub turn: u32,
}
