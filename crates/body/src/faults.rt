// The refusals of the wire, and the fault that names one.
ghost use Rattle.std.specs.Prelude.{◌≡◌, Some};
ghost use Rattle.body.specs.Faults.{refusal_number, fault_text};

use std::error::Error;
use std::fmt;

// Why bytes are no frame, or why a frame, a change or a claim cannot be made or written.
#[derive(Clone, Copy, PartialEq, Eq, Debug)]
pub enum WireRefusal {
    // the bytes, or the buffer to write into, end too soon
    EndsTooSoon = 24,
    // the kind is above 5
    UnknownKind = 25,
    // a number is outside its range
    OutOfRange = 26,
    // bytes are left over behind a whole frame
    LeftOver = 27,
}

impl WireRefusal {
    // The refusal's number in the table of refusals: asked by name, where `u8::from` would not say which number it is.
    pub fn number(self) -> u8
        ensures { result ≡ refusal_number self }
    {
        self as u8
    }
}

// A refusal and the byte that it speaks of, counted from 0.
#[derive(Clone, Copy, PartialEq, Eq, Debug)]
pub struct WireFault {
    pub refusal: WireRefusal,
    pub byte: usize,
}

// What the making of a value outside its ranges answers.
pub const UNFIT: WireFault = WireFault {
    refusal: WireRefusal::OutOfRange,
    byte: 0,
};

// As a program reports it: `refused 26 byte 8`.
impl fmt::Display for WireFault {
    ghost output = { λ e. Some (fault_text e) };

    fn fmt<W: fmt::Write>(&self, f: &mut fmt::Formatter<W>) -> fmt::Result {
        let number = self.refusal.number();
        let byte = self.byte;
        write!(f, "refused {number} byte {byte}")
    }
}

impl Error for WireFault {}
