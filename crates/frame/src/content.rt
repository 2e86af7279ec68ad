// What a frame says besides its sender and clock.
use crate::counters::{MessageNumber, RoleNumber};

// Plain numbers, in no range yet: a `Payload` holds only a content that is in its ranges.
// A message names the sequencer that is to ticket it, with that printer's role number. The two stay fields of their
// own, since a frame is written, read and taken apart field by field.
#[derive(Clone, Copy, PartialEq, Eq)]
pub enum Content<B> {
    Data {
        number: MessageNumber,
        sequencer: u32,
        role: RoleNumber,
        body: B,
    },
    Up {
        number: MessageNumber,
        sequencer: u32,
        role: RoleNumber,
    },
    Down {
        number: MessageNumber,
        sequencer: u32,
        role: RoleNumber,
    },
    // of which sender's message the frame is a ticket; the ticket's number is the frame's clock
    Ticket {
        of: u32,
        number: MessageNumber,
    },
    // the sender's messages after `last` up to `sent` go to this sequencer
    Reassign {
        last: MessageNumber,
        sent: MessageNumber,
        sequencer: u32,
        role: RoleNumber,
    },
    Clock,
}
