// A frame as a plain row.
use crate::content::Content;
use crate::counters::TicketNumber;

// A frame's numbers with its body's row, in no range: it may lie in an array.
#[derive(Clone, Copy, PartialEq, Eq)]
pub struct FrameRow<R> {
    pub sender: u32,
    pub clock: TicketNumber,
    pub content: Content<R>,
}

impl<R> FrameRow<R> {
    // What a cell may hold at first: the row of a clock frame that tells nothing.
    pub const IDLE: FrameRow<R> = FrameRow {
        sender: 0,
        clock: TicketNumber(0),
        content: Content::Clock,
    };
}
