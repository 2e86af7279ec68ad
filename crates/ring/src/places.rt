// Places in the circles of the rings.
ghost use Rattle.std.specs.Prelude.{◌≡◌, ◌<◌, vec_len};
ghost use Rattle.ring.specs.Rings.{cell};

use crate::ring::RingTransport;
use body::Body;

impl<B: Body> RingTransport<B> {
    // The cell of a place in the circle of a pair. That the pair is there is asked: each caller has tested it.
    pub(crate) fn cell_index(&self, sender: u32, receiver: u32, place: usize) -> usize
        requires sender_there { sender < self.now.members.size }
        requires receiver_there { receiver < self.now.members.size }
        requires place_there { place < self.now.limit }
        ensures value { result ≡ cell self.now.members.size self.now.limit sender receiver place }
        ensures within { result < vec_len self.now.cells }
    {
        (sender as usize * self.members.size() as usize + receiver as usize) * self.limit + place
    }
}
