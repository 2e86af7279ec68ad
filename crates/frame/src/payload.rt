// All of a frame but its sender.
ghost use Rattle.std.specs.Prelude.{◌≡◌, ⊤, true};
ghost use Rattle.frame.specs.Ranges.{payload_ok};

use crate::content::Content;
use crate::counters::TicketNumber;
use std::alloc::AllocError;

// A clock and a content in their ranges. With any sender it makes a frame.
#[derive(PartialEq, Eq)]
pub struct Payload<B> {
    pub clock: TicketNumber,
    pub content: Content<B>,
    ghost ok: { payload_ok clock content ≡ true },
}

// By hand: the derive does not cover a generic struct with a ghost field.
impl<B: Copy> Clone for Payload<B> {
    ghost is_clone = { λ given copy. copy ≡ given };

    ghost is_infallible = { λ _. ⊤ };

    fn clone(&self) -> Result<Payload<B>, AllocError> {
        Ok(*self)
    }
}

impl<B: Copy> Copy for Payload<B> {}
