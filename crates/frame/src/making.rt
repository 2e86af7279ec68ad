// Making a frame and its parts.
ghost use Rattle.std.specs.Prelude.{◌≡◌};
ghost use Rattle.std.specs.Option.{ok_or};
ghost use Rattle.body.specs.Faults.{unfit};
ghost use Rattle.frame.specs.Contents.{kind_of};
ghost use Rattle.frame.specs.Ranges.{is_printer, content_ok};
ghost use Rattle.frame.specs.Frames.{printer_of, payload_of, frame_of};

use crate::content::Content;
use crate::counters::TicketNumber;
use crate::frame::Frame;
use crate::frame_kind::FrameKind;
use crate::payload::Payload;
use crate::printer_number::PrinterNumber;
use body::{UNFIT, WireFault};

fn is_printer(value: u32) -> bool
    ensures { result ≡ is_printer value }
{
    value <= 7
}

impl PrinterNumber {
    // A constructor and no `TryFrom`: all parts of a frame are made by a `new` that answers the same fault.
    pub fn new(value: u32) -> Result<PrinterNumber, WireFault>
        ensures { result ≡ ok_or (printer_of value) unfit }
    {
        if is_printer(value) {
            Ok(PrinterNumber { value })
        } else {
            Err(UNFIT)
        }
    }
}

impl<B: Copy> Content<B> {
    // Whether the content is in its ranges in a frame with this clock.
    fn in_range(self, clock: TicketNumber) -> bool
        ensures { result ≡ content_ok clock.0 self }
    {
        match self {
            Content::Data {
                number,
                sequencer,
                ..
            }
            | Content::Up {
                number,
                sequencer,
                ..
            }
            | Content::Down {
                number,
                sequencer,
                ..
            } => 1 <= number.0 && sequencer <= 7,
            Content::Ticket { of, number } => 1 <= clock.0 && of <= 7 && 1 <= number.0,
            Content::Reassign {
                last,
                sent,
                sequencer,
                ..
            } => last.0 < sent.0 && sent.0 - last.0 <= 7 && sequencer <= 7,
            Content::Clock => true,
        }
    }
}

impl<B: Copy> Payload<B> {
    pub fn new(clock: TicketNumber, content: Content<B>) -> Result<Payload<B>, WireFault>
        ensures { result ≡ ok_or (payload_of clock content) unfit }
    {
        if content.in_range(clock) {
            Ok(Payload { clock, content })
        } else {
            Err(UNFIT)
        }
    }
}

impl<B: Copy> Frame<B> {
    // A frame from plain numbers.
    pub fn new(sender: u32, clock: TicketNumber, content: Content<B>) -> Result<Frame<B>, WireFault>
        ensures { result ≡ ok_or (frame_of sender clock content) unfit }
    {
        let sender = PrinterNumber::new(sender)?;
        let payload = Payload::new(clock, content)?;
        Ok(Frame { sender, payload })
    }

    pub fn kind(self) -> FrameKind
        ensures { result ≡ kind_of self.payload.content }
    {
        match self.payload.content {
            Content::Data { .. } => FrameKind::Data,
            Content::Up { .. } => FrameKind::Up,
            Content::Down { .. } => FrameKind::Down,
            Content::Ticket { .. } => FrameKind::Ticket,
            Content::Reassign { .. } => FrameKind::Reassign,
            Content::Clock => FrameKind::Clock,
        }
    }
}
