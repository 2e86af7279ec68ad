// A frame from its words.
ghost use Rattle.std.specs.Prelude.{◌≡◌};
ghost use Rattle.wire.specs.Rebuilt.{content_rebuilt, frame_rebuilt};

use body::Body;
use frame::{Content, Frame, FrameKind, MessageNumber, RoleNumber, TicketNumber};

fn content_from_words<B: Body>(kind: FrameKind, words: &[u32]) -> Option<Content<B>>
    ensures { result ≡ content_rebuilt B.rebuilt kind words.now }
{
    match (kind, words) {
        // `B::from_words(body)?` says the same, and made reading slower by up to a tenth
        (FrameKind::Data, [number, sequencer, role, body @ ..]) => match B::from_words(body) {
            Some(body) => Some(Content::Data {
                number: MessageNumber(*number),
                sequencer: *sequencer,
                role: RoleNumber(*role),
                body,
            }),
            None => None,
        },
        // an up and a down differ in the variant alone, and to tell them apart takes two arms here or elsewhere
        (FrameKind::Up, [number, sequencer, role]) => Some(Content::Up {
            number: MessageNumber(*number),
            sequencer: *sequencer,
            role: RoleNumber(*role),
        }),
        (FrameKind::Down, [number, sequencer, role]) => Some(Content::Down {
            number: MessageNumber(*number),
            sequencer: *sequencer,
            role: RoleNumber(*role),
        }),
        (FrameKind::Ticket, [of, number]) => Some(Content::Ticket {
            of: *of,
            number: MessageNumber(*number),
        }),
        (FrameKind::Reassign, [last, sent, sequencer, role]) => Some(Content::Reassign {
            last: MessageNumber(*last),
            sent: MessageNumber(*sent),
            sequencer: *sequencer,
            role: RoleNumber(*role),
        }),
        (FrameKind::Clock, []) => Some(Content::Clock),
        _ => None,
    }
}

pub(crate) fn frame_from_words<B: Body>(kind: FrameKind, words: &[u32]) -> Option<Frame<B>>
    ensures { result ≡ frame_rebuilt B.rebuilt kind words.now }
{
    let [sender, clock, content @ ..] = words else {
        return None;
    };
    let content = content_from_words::<B>(kind, content)?;
    Frame::new(*sender, TicketNumber(*clock), content).ok()
}
