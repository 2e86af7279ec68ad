// A frame as a plain row, and back.
ghost use Rattle.std.specs.Prelude.{◌≡◌, IfSome, Some};
ghost use Rattle.frame.specs.Rows.{content_row, frame_row, content_remade, frame_remade};

use crate::content::Content;
use crate::frame::Frame;
use crate::frame_row::FrameRow;
use body::Body;

// This match and the next stay two: one function for both would take what it does to a body as a closure, and the check
// does not cover `B::from_row` as one, whose result names a type that its argument does not.
fn content_to_row<B: Body>(content: Content<B>) -> Content<B::Row>
    ensures { result ≡ content_row B.Body.row content }
{
    match content {
        Content::Data {
            number,
            sequencer,
            role,
            body,
        } => Content::Data {
            number,
            sequencer,
            role,
            body: body.to_row(),
        },
        Content::Up {
            number,
            sequencer,
            role,
        } => Content::Up {
            number,
            sequencer,
            role,
        },
        Content::Down {
            number,
            sequencer,
            role,
        } => Content::Down {
            number,
            sequencer,
            role,
        },
        Content::Ticket { of, number } => Content::Ticket { of, number },
        Content::Reassign {
            last,
            sent,
            sequencer,
            role,
        } => Content::Reassign {
            last,
            sent,
            sequencer,
            role,
        },
        Content::Clock => Content::Clock,
    }
}

fn content_from_row<B: Body>(content: Content<B::Row>) -> Option<Content<B>>
    ensures { result ≡ content_remade B.remade content }
{
    Some(match content {
        Content::Data {
            number,
            sequencer,
            role,
            body,
        } => Content::Data {
            number,
            sequencer,
            role,
            body: B::from_row(body)?,
        },
        Content::Up {
            number,
            sequencer,
            role,
        } => Content::Up {
            number,
            sequencer,
            role,
        },
        Content::Down {
            number,
            sequencer,
            role,
        } => Content::Down {
            number,
            sequencer,
            role,
        },
        Content::Ticket { of, number } => Content::Ticket { of, number },
        Content::Reassign {
            last,
            sent,
            sequencer,
            role,
        } => Content::Reassign {
            last,
            sent,
            sequencer,
            role,
        },
        Content::Clock => Content::Clock,
    })
}

impl<B: Body> Frame<B> {
    // The row of the frame, from which the same frame is made again. No `From`, as for bodies.
    pub fn to_row(self) -> FrameRow<B::Row>
        ensures value { result ≡ frame_row B.Body.row self }
        ensures again { frame_remade B.remade result ≡ Some self }
    {
        FrameRow {
            sender: self.sender.value,
            clock: self.payload.clock,
            content: content_to_row(self.payload.content),
        }
    }

    // The frame of a row; none of a row that no frame gives.
    pub fn from_row(given: FrameRow<B::Row>) -> Option<Frame<B>>
        ensures value { result ≡ frame_remade B.remade given }
        ensures plain { IfSome result (λ f. frame_row B.Body.row f ≡ given) }
    {
        let content = content_from_row::<B>(given.content)?;
        Frame::new(given.sender, given.clock, content).ok()
    }
}
