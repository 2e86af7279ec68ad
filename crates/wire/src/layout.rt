// Which words a frame has, and which of them are in range.
ghost use Rattle.std.specs.Prelude.{◌≡◌};
ghost use Rattle.wire.specs.Layout.{kind_count, kind_allows, content_allows, assigned_allows, none_allowed};

use body::Body;
use frame::FrameKind;

// How many words follow the kind.
pub(crate) fn words_after<B: Body>(kind: FrameKind) -> usize
    ensures value { result ≡ kind_count B.count kind }
{
    match kind {
        FrameKind::Data => 5 + B::word_count(),
        FrameKind::Up | FrameKind::Down => 5,
        FrameKind::Ticket => 4,
        FrameKind::Reassign => 6,
        FrameKind::Clock => 2,
    }
}

// Whether a word of a message but those of its body is in range after those before it, its number first.
fn message_in_range(before: &[u32], word: u32) -> bool
    ensures { result ≡ assigned_allows none_allowed before.now word }
{
    match before {
        [] => 1 <= word,
        [_] => word <= 7,
        [_, _] => true,
        _ => false,
    }
}

// Whether a word behind the clock is in range after those before it there.
fn content_in_range<B: Body>(kind: FrameKind, before: &[u32], word: u32) -> bool
    ensures { result ≡ content_allows B.allows kind before.now word }
{
    match (kind, before) {
        (FrameKind::Data, [_, _, _, body @ ..]) => B::in_range(body, word),
        (FrameKind::Data | FrameKind::Up | FrameKind::Down, _) => message_in_range(before, word),
        (FrameKind::Ticket, []) => word <= 7,
        (FrameKind::Ticket, [_]) => 1 <= word,
        (FrameKind::Reassign, []) => true,
        (FrameKind::Reassign, [last]) => *last < word && word - *last <= 7,
        (FrameKind::Reassign, [_, _]) => word <= 7,
        (FrameKind::Reassign, [_, _, _]) => true,
        _ => false,
    }
}

// Whether a word is in range after those between it and the kind.
pub(crate) fn in_range<B: Body>(kind: FrameKind, before: &[u32], word: u32) -> bool
    ensures { result ≡ kind_allows B.allows kind before.now word }
{
    match before {
        [] => word <= 7,
        [_] => kind != FrameKind::Ticket || 1 <= word,
        [_, _, content @ ..] => content_in_range::<B>(kind, content, word),
    }
}
