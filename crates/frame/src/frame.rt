// A frame.
use crate::payload::Payload;
use crate::printer_number::PrinterNumber;

// What one printer sends to all others. Its parts carry their ranges, so any two of them make a frame.
#[derive(PartialEq, Eq)]
#[derive_where(Clone, Copy; B: Copy)]
pub struct Frame<B> {
    pub sender: PrinterNumber,
    pub payload: Payload<B>,
}
