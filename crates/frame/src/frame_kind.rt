// The kinds of frames.
ghost use Rattle.std.specs.Prelude.{◌≡◌};
ghost use Rattle.std.specs.Option.{ok_or};
ghost use Rattle.frame.specs.Kinds.{kind_number, kind_named, no_such_kind};

use body::{WireFault, WireRefusal};

// What a frame tells. The numbers are those of the wire.
#[derive(Clone, Copy, PartialEq, Eq, Debug)]
pub enum FrameKind {
    // a message with a body
    Data = 0,
    // a message by which its sender asks to become active
    Up = 1,
    // a message by which its sender asks to become passive
    Down = 2,
    // a ticket: the place of a message
    Ticket = 3,
    // messages of the sender have another sequencer now
    Reassign = 4,
    // the sender's clock and nothing else
    Clock = 5,
}

// The kind of a number, as it stands in a frame's first word.
impl TryFrom<u32> for FrameKind {
    type Error = WireFault;

    ghost try_from_gives = { λ number r. r ≡ ok_or (kind_named number) no_such_kind };

    fn try_from(number: u32) -> Result<FrameKind, WireFault> {
        match number {
            0 => Ok(FrameKind::Data),
            1 => Ok(FrameKind::Up),
            2 => Ok(FrameKind::Down),
            3 => Ok(FrameKind::Ticket),
            4 => Ok(FrameKind::Reassign),
            5 => Ok(FrameKind::Clock),
            _ => Err(WireFault {
                refusal: WireRefusal::UnknownKind,
                byte: 0,
            }),
        }
    }
}

impl From<FrameKind> for u32 {
    ghost from_gives = { λ kind r. r ≡ kind_number kind };

    fn from(kind: FrameKind) -> u32 {
        kind as u32
    }
}
