// A block in hex: its digits, and the bytes that they make.
ghost use Rattle.std.specs.Prelude.{◌≡◌, Some, vec_items};
ghost use Rattle.dump.specs.Reads.{Reads};
ghost use Rattle.dump.specs.Hex.{digits_step, digits_of, bytes_of, hex_block};
ghost use Rattle.dump.specs.Digits.{values, pair_byte};

use crate::digit::Digit;
use crate::faults::LineFault;
use std::alloc::Global;

// How many digits make a word: spaces stand only between words.
const WORD_DIGITS: usize = 8;

// Takes one more character of a text into the digits so far.
fn take_char(digits: &mut Vec<Digit>, c: u8) -> Result<(), LineFault>
    ensures { Reads (digits_step (Some (values digits.old.items)) c) (λ _. values digits.new.items) result }
{
    match Digit::from_char(c) {
        Some(digit) => digits.push(digit)?,
        None if c == b' ' && digits.len() % WORD_DIGITS == 0 => {}
        None => return Err(LineFault::NotHex),
    }
    Ok(())
}

// The digits of `text`, whose words may stand apart.
fn digits_of(heap: Global, text: &[u8]) -> Result<Vec<Digit>, LineFault>
    ensures { Reads (digits_of text.now) (λ v. values v.items) result }
{
    let mut digits = Vec::new(heap);
    for c in text {
        take_char(&mut digits, *c)?;
    }
    Ok(digits)
}

fn byte_of(pair: &[Digit; 2]) -> u8
    ensures { result ≡ pair_byte pair.now }
{
    let [high, low] = pair;
    high.value * 16 + low.value
}

// Each two digits as a byte, the high digit first.
#[tactic(auto, using(crate::proofs::Pairs::bytes_of_even, crate::proofs::Pairs::bytes_of_odd))]
fn bytes_of(heap: Global, digits: &[Digit]) -> Result<Vec<u8>, LineFault>
    ensures { Reads (bytes_of (values digits.now)) vec_items result }
{
    let (pairs, []) = digits.as_chunks::<2>() else {
        return Err(LineFault::NotHex);
    };
    Ok(pairs.iter().map(byte_of).collect(heap)?)
}

// The block that `text` has in hex.
pub(crate) fn read_hex(heap: Global, text: &[u8]) -> Result<Vec<u8>, LineFault>
    ensures { Reads (hex_block text.now) vec_items result }
{
    let digits = digits_of(heap, text)?;
    bytes_of(heap, &digits)
}
