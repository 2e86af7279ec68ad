// Frames in bytes: writing one, and reading any bytes. All that a frame is made of can be named from here too.
#![tactic(auto)]

mod layout;
mod read;
mod rebuild;
mod write;

pub use body::{
    Body, ChangeKind, ChangeRow, ClaimRow, NumberClaim, TemplateChange, UNFIT, WireFault,
    WireRefusal,
};
pub use frame::{
    Content, Frame, FrameKind, FrameRow, MessageNumber, Payload, PrinterCount, PrinterNumber,
    RoleNumber, TicketNumber,
};
pub use read::read_frame;
pub use write::{MAX_FRAME_BYTES, frame_length, write_frame};
