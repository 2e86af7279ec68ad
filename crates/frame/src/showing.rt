// A frame as a line of text.
ghost use Rattle.std.specs.Prelude.{Some};
ghost use Rattle.std.specs.Fmt.{WritesOnOk};
ghost use Rattle.frame.specs.Texts.{kind_name, message_text, reassign_text, body_text, content_text, frame_text};

use crate::content::Content;
use crate::counters::{MessageNumber, RoleNumber};
use crate::frame::Frame;
use crate::frame_kind::FrameKind;
use body::Body;
use std::fmt;
use std::fmt::Formatter;

impl fmt::Display for FrameKind {
    ghost output = { λ kind. Some (kind_name kind) };

    fn fmt<W: fmt::Write>(&self, f: &mut Formatter<W>) -> fmt::Result {
        f.write_str(match self {
            FrameKind::Data => "data",
            FrameKind::Up => "up",
            FrameKind::Down => "down",
            FrameKind::Ticket => "ticket",
            FrameKind::Reassign => "reassign",
            FrameKind::Clock => "clock",
        })
    }
}

// All numbers of a frame by their names, as `ticket sender=3 clock=1 of=6 number=2`.
impl<B: Body> fmt::Display for Frame<B> {
    ghost output = { λ frame. Some (frame_text B.words frame) };

    fn fmt<W: fmt::Write>(&self, f: &mut Formatter<W>) -> fmt::Result {
        let kind = self.kind();
        let sender = self.sender.value;
        let clock = self.payload.clock.0;
        write!(f, "{kind} sender={sender} clock={clock}")?;
        write_content(f, self.payload.content)
    }
}

fn write_content<W: fmt::Write, B: Body>(f: &mut Formatter<W>, content: Content<B>) -> fmt::Result
    ensures { WritesOnOk W.write_str_gives f.old result (content_text B.words content) f.new }
{
    match content {
        Content::Data {
            number,
            sequencer,
            role,
            body,
        } => {
            write_message(f, number, sequencer, role)?;
            write_body(f, body)
        }
        Content::Up {
            number,
            sequencer,
            role,
        }
        | Content::Down {
            number,
            sequencer,
            role,
        } => write_message(f, number, sequencer, role),
        Content::Ticket { of, number } => write!(f, " of={of} number={}", number.0),
        Content::Reassign {
            last,
            sent,
            sequencer,
            role,
        } => write_reassign(f, last, sent, sequencer, role),
        Content::Clock => Ok(()),
    }
}

fn write_message<W: fmt::Write>(
    f: &mut Formatter<W>,
    number: MessageNumber,
    sequencer: u32,
    role: RoleNumber,
) -> fmt::Result
    ensures { WritesOnOk W.write_str_gives f.old result (message_text number sequencer role) f.new }
{
    write!(
        f,
        " number={} sequencer={sequencer} role={}",
        number.0, role.0
    )
}

fn write_reassign<W: fmt::Write>(
    f: &mut Formatter<W>,
    last: MessageNumber,
    sent: MessageNumber,
    sequencer: u32,
    role: RoleNumber,
) -> fmt::Result
    ensures { WritesOnOk W.write_str_gives f.old result (reassign_text last sent sequencer role) f.new }
{
    write!(f, " last={} sent={}", last.0, sent.0)?;
    write!(f, " sequencer={sequencer} role={}", role.0)
}

// The words of a body, with commas between them.
fn write_body<W: fmt::Write, B: Body>(f: &mut Formatter<W>, body: B) -> fmt::Result
    ensures { WritesOnOk W.write_str_gives f.old result (body_text (B.words body)) f.new }
{
    write!(f, " body={}", body.word(0))?;
    // a body tells its words one by one, by their places
    for i in 1..B::word_count() {
        write!(f, ",{}", body.word(i))?;
    }
    Ok(())
}
