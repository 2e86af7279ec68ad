// Frames in cells.
ghost use Rattle.std.specs.Prelude.{◌≡◌};
ghost use Rattle.transport.specs.Stored.{idle, stored};

use body::Body;
use frame::{Content, Frame, FrameRow, Payload, PrinterNumber, TicketNumber};

#[tactic(auto, using(crate::proofs::StoredLaws::same_frame))]
fn idle_frame<B: Body>() -> Frame<B>
    ensures { result ≡ idle }
{
    let sender = PrinterNumber { value: 0 };
    let payload = Payload {
        clock: TicketNumber(0),
        content: Content::Clock,
    };
    Frame { sender, payload }
}

// The frame that a cell holds. Cells hold anything before they are written; a row that no frame gives is read as an
// idle clock frame, so that reading needs no failure of its own.
pub fn stored_frame<B: Body>(row: FrameRow<B::Row>) -> Frame<B>
    ensures { result ≡ stored B.remade row }
{
    Frame::from_row(row).unwrap_or(idle_frame())
}
