// Writing a frame.
ghost use Rattle.std.specs.Prelude.{◌≡◌, ◌+◌, ◌*◌, ◌≤◌, ◌++◌, length, take, drop, IfOk, slice_index};
ghost use Rattle.wire.specs.Bytes.{word_bytes};
ghost use Rattle.wire.specs.Layout.{content_words, frame_words, frame_bytes};
ghost use Rattle.wire.specs.Reading.{ReadsBack};
ghost use Rattle.wire.specs.Writing.{write_answer, write_after};

use crate::layout::words_after;
use body::{Body, WireFault, WireRefusal};
use frame::Content::{Data, Down, Reassign, Ticket, Up};
use frame::{Content, Frame};

// A buffer of this length holds every frame of every body kind: six words, and eight of a body.
pub const MAX_FRAME_BYTES: usize = 56;

fn content_word<B: Body>(content: Content<B>, i: usize) -> u32
    ensures { result ≡ slice_index (content_words B.words content) i }
{
    match (content, i) {
        (Data { number, .. } | Up { number, .. } | Down { number, .. }, 0) => number.0,
        (Data { sequencer, .. } | Up { sequencer, .. } | Down { sequencer, .. }, 1) => sequencer,
        (Data { role, .. } | Up { role, .. } | Down { role, .. }, 2) => role.0,
        (Data { body, .. }, _) => body.word(i - 3),
        (Ticket { of, .. }, 0) => of,
        (Ticket { number, .. }, 1) => number.0,
        (Reassign { last, .. }, 0) => last.0,
        (Reassign { sent, .. }, 1) => sent.0,
        (Reassign { sequencer, .. }, 2) => sequencer,
        (Reassign { role, .. }, 3) => role.0,
        _ => 0,
    }
}

fn frame_word<B: Body>(frame: Frame<B>, i: usize) -> u32
    ensures { result ≡ slice_index (frame_words B.words frame) i }
{
    match i {
        0 => u32::from(frame.kind()),
        1 => frame.sender.value,
        2 => frame.payload.clock.0,
        _ => content_word(frame.payload.content, i - 3),
    }
}

fn put_word(out: &mut [u8], at: usize, word: u32)
    requires { at + 4 ≤ length out.old }
    ensures { out.new ≡ take at out.old ++ (word_bytes word ++ drop (at + 4) out.old) }
{
    out[at..at + 4].copy_from_slice(&word.to_be_bytes());
}

fn frame_words<B: Body>(frame: Frame<B>) -> usize
    ensures value { result ≡ length (frame_words B.words frame) }
    ensures bound { result ≤ 14 }
{
    1 + words_after::<B>(frame.kind())
}

// How many bytes the frame takes when it is written, at most `MAX_FRAME_BYTES`.
#[tactic(auto, using(crate::proofs::Written::length_words_bytes))]
pub fn frame_length<B: Body>(frame: Frame<B>) -> usize
    ensures value { result ≡ length (frame_bytes B.words frame) }
    ensures bound { result ≤ 56 }
{
    4 * frame_words(frame)
}

// All words of the frame, to the front of a buffer that holds them. Of a buffer that `chunks_exact_mut` has lent out a
// proof knows the length alone, so the places are counted.
#[tactic(auto, using(crate::proofs::Written::fronts))]
fn put_words<B: Body>(frame: Frame<B>, out: &mut [u8])
    requires { length (frame_bytes B.words frame) ≤ length out.old }
    ensures { out.new ≡ frame_bytes B.words frame ++ drop (length (frame_bytes B.words frame)) out.old }
{
    for i in 0..frame_words(frame) {
        put_word(out, 4 * i, frame_word(frame, i));
    }
}

// Writes the frame to the front of a buffer and answers how many bytes it takes there. What it writes reads back as the
// frame.
pub fn write_frame<B: Body>(frame: Frame<B>, out: &mut [u8]) -> Result<usize, WireFault>
    ensures answer { result ≡ write_answer out.old (frame_bytes B.words frame) }
    ensures after { out.new ≡ write_after out.old (frame_bytes B.words frame) }
    ensures back { IfOk result (λ n. ReadsBack B.words B.allows B.count (take n out.new) frame) }
{
    let length = frame_length(frame);
    if out.len() < length {
        return Err(WireFault {
            refusal: WireRefusal::EndsTooSoon,
            byte: out.len() / 4 * 4,
        });
    }
    put_words(frame, out);
    Ok(length)
}
