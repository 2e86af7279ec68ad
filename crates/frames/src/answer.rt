// What the program answers to a line.
ghost use Rattle.std.specs.Prelude.{IfOk, string_bytes};
ghost use Rattle.dump.specs.Lines.{line_means};
ghost use Rattle.frames.specs.Texts.{BlockText, LineText};

use body::{Body, NumberClaim, TemplateChange};
use dump::{BodyKind, LineFault, read_line};
use std::alloc::{AllocError, Global};
use wire::read_frame;

fn block_answer<B: Body>(heap: Global, block: &[u8]) -> Result<String, AllocError>
    ensures { IfOk result (λ s. BlockText B.words B.allows B.count block.now (string_bytes s)) }
{
    match read_frame::<B>(block) {
        Ok(frame) => format!(in heap; "{frame}"),
        Err(fault) => format!(in heap; "{fault}"),
    }
}

pub(crate) fn answer(heap: Global, line: &[u8]) -> Result<String, AllocError>
    ensures { IfOk result (λ s. LineText (line_means line.now) (string_bytes s)) }
{
    match read_line(heap, line) {
        Ok(dump) => match dump.kind {
            BodyKind::Change => block_answer::<TemplateChange>(heap, dump.block.as_slice()),
            BodyKind::Claim => block_answer::<NumberClaim>(heap, dump.block.as_slice()),
        },
        Err(LineFault::NotHex) => String::from_str(heap, "not hex"),
        Err(LineFault::Memory) => Err(AllocError),
    }
}
