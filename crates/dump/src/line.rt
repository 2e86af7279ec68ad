// One line of a dump: its body kind and its block.
ghost use Rattle.std.specs.Prelude.{vec_items};
ghost use Rattle.dump.specs.Lines.{block_after, of_kind, text_means, line_means, contents};
ghost use Rattle.dump.specs.Reads.{Reads};

use crate::faults::LineFault;
use crate::hex::read_hex;
use crate::trim::trim;
use std::alloc::Global;

// Which body a block carries.
#[derive(Clone, Copy, PartialEq, Eq, Debug)]
pub enum BodyKind {
    Change,
    Claim,
}

// What a line of a dump means.
#[derive(Drop)]
pub struct Dump {
    pub kind: BodyKind,
    pub block: Vec<u8>,
}

// The block that follows a kind's name: nothing, or a space and then hex.
fn block_after(heap: Global, rest: &[u8]) -> Result<Vec<u8>, LineFault>
    ensures { Reads (block_after rest.now) vec_items result }
{
    match rest {
        [] => Ok(Vec::new(heap)),
        [b' ', hex @ ..] => read_hex(heap, hex),
        _ => Err(LineFault::NotHex),
    }
}

fn dump_of(heap: Global, kind: BodyKind, rest: &[u8]) -> Result<Dump, LineFault>
    ensures { Reads (of_kind kind (block_after rest.now)) contents result }
{
    let block = block_after(heap, rest)?;
    Ok(Dump { kind, block })
}

fn read_text(heap: Global, text: &[u8]) -> Result<Dump, LineFault>
    ensures { Reads (text_means text.now) contents result }
{
    if let Some(rest) = text.strip_prefix(b"change") {
        dump_of(heap, BodyKind::Change, rest)
    } else if let Some(rest) = text.strip_prefix(b"claim") {
        dump_of(heap, BodyKind::Claim, rest)
    } else {
        Err(LineFault::NotHex)
    }
}

// Reads one line of a dump, without its newline.
pub fn read_line(heap: Global, line: &[u8]) -> Result<Dump, LineFault>
    ensures { Reads (line_means line.now) contents result }
{
    read_text(heap, trim(line))
}
