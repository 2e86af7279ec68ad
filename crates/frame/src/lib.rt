// Frames: what printers send each other. Their parts carry their ranges, and a frame has a plain row.
#![tactic(auto)]

mod content;
mod counters;
mod frame;
mod frame_kind;
mod frame_row;
mod making;
mod payload;
mod printer_number;
mod rows;
mod showing;

pub use content::Content;
pub use counters::{MessageNumber, RoleNumber, TicketNumber};
pub use frame::Frame;
pub use frame_kind::FrameKind;
pub use frame_row::FrameRow;
pub use payload::Payload;
pub use printer_number::{PrinterCount, PrinterNumber};
