// Reading any bytes.
ghost use Rattle.std.specs.Prelude.{◌≡◌, ◌+◌, ◌^◌, ◌<◌, ◌≤◌, length, IfOk, if◌then◌else◌, Some, None, nat_le};
ghost use Rattle.wire.specs.Bytes.{word_at};
ghost use Rattle.wire.specs.Layout.{kind_count, kind_allows, frame_bytes};
ghost use Rattle.wire.specs.Reading.{Reads};
ghost use Rattle.wire.specs.Filling.{next_word, Fills, RestReads};

use crate::layout::{in_range, words_after};
use crate::rebuild::frame_from_words;
use body::{Body, WireFault, WireRefusal};
use frame::{Frame, FrameKind};

// No frame has more words behind its kind: five, and eight of a body.
const MOST_WORDS: usize = 13;

fn word_at(bytes: &[u8], at: usize) -> Option<u32>
    requires { at < 2 ^ 32 }
    ensures { result ≡ (if nat_le (at + 4) (length bytes.now) then Some (word_at bytes.now at) else None) }
{
    let word = bytes.get(at..at + 4)?.first_chunk()?;
    Some(u32::from_be_bytes(*word))
}

// The word behind the kind and the words before it, if it is there and in range.
fn next_word<B: Body>(kind: FrameKind, before: &[u32], bytes: &[u8]) -> Result<u32, WireFault>
    requires { length before.now ≤ 13 }
    ensures { result ≡ next_word (kind_allows B.allows kind) before.now bytes.now }
{
    let byte = 4 + 4 * before.len();
    let word = word_at(bytes, byte).ok_or(WireFault {
        refusal: WireRefusal::EndsTooSoon,
        byte,
    })?;
    if in_range::<B>(kind, before, word) {
        Ok(word)
    } else {
        Err(WireFault {
            refusal: WireRefusal::OutOfRange,
            byte,
        })
    }
}

// The words behind the kind, into a slice of their number.
fn fill_words<B: Body>(kind: FrameKind, bytes: &[u8], words: &mut [u32]) -> Result<(), WireFault>
    requires { length words.old ≡ kind_count B.count kind }
    ensures { Fills (kind_allows B.allows kind) (kind_count B.count kind) bytes.now words.new result }
{
    // by places, since each word is judged by those before it in the same slice
    for n in 0..words.len() {
        words[n] = next_word::<B>(kind, &words[..n], bytes)?;
    }
    let byte = 4 + 4 * words.len();
    if bytes.len() > byte {
        return Err(WireFault {
            refusal: WireRefusal::LeftOver,
            byte,
        });
    }
    Ok(())
}

// The frame of a kind. Words that are in range make one.
fn read_rest<B: Body>(kind: FrameKind, bytes: &[u8]) -> Result<Frame<B>, WireFault>
    ensures { RestReads B.words B.allows B.count kind bytes.now result }
{
    // an `ArrayVec` in place of this array made reading slower by up to a tenth
    let mut buffer = [0; MOST_WORDS];
    let words = &mut buffer[..words_after::<B>(kind)];
    fill_words::<B>(kind, bytes, words)?;
    Ok(frame_from_words::<B>(kind, words).unwrap())
}

// The frame that the bytes are, or the first fault among them. Bytes that read as a frame are what is written of it.
pub fn read_frame<B: Body>(bytes: &[u8]) -> Result<Frame<B>, WireFault>
    ensures reads { Reads B.words B.allows B.count bytes.now result }
    ensures exact { IfOk result (λ f. bytes.now ≡ frame_bytes B.words f) }
{
    let word = word_at(bytes, 0).ok_or(WireFault {
        refusal: WireRefusal::EndsTooSoon,
        byte: 0,
    })?;
    read_rest(FrameKind::try_from(word)?, bytes)
}
