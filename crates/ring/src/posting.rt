// A frame for all pairs from its sender.
ghost use Rattle.std.specs.Prelude.{◌≡◌, ◌<◌, true, length};
ghost use Rattle.transport.specs.Members.{reaches};
ghost use Rattle.transport.specs.Nets.{accepts, after_post, most_posts};
ghost use Rattle.transport.specs.Stored.{stored};
ghost use Rattle.transport.specs.Tables.{at_pair};
ghost use Rattle.ring.specs.Circles.{empty_circle};
ghost use Rattle.ring.specs.Meaning.{ring_meaning};
ghost use Rattle.ring.specs.Rings.{pushed};

use crate::circle::Circle;
use crate::ring::RingTransport;
use body::Body;
use frame::{Frame, FrameRow, PrinterNumber};
use transport::{Queues, place_after};

impl<B: Body> Queues for RingTransport<B> {
    ghost queued = { λ t s j. length ((ring_meaning B.remade t).waiting s j) };

    fn waiting(&self, sender: u32, receiver: u32) -> usize {
        self.waits(sender, receiver)
    }
}

impl<B: Body> RingTransport<B> {
    // How many posts the sender could make in a row.
    pub(crate) fn posts_left(&self, sender: u32) -> usize
        ensures { result ≡ most_posts (ring_meaning B.remade self.now) sender }
    {
        self.members.most_posts(sender, self.limit, self)
    }

    // One row more at the end of a pair that has room.
    fn push(&mut self, sender: PrinterNumber, receiver: PrinterNumber, row: FrameRow<B::Row>)
        requires reached { reaches self.old.members sender.value receiver.value ≡ true }
        requires has_room { (at_pair empty_circle self.old.circles sender.value receiver.value).held < self.old.limit }
        ensures { ring_meaning B.remade self.new ≡ pushed (ring_meaning B.remade self.old) sender.value receiver.value (stored B.remade row) }
    {
        let Circle { start, held } = self.circles.get(sender, receiver);
        let place = place_after(self.limit, start, held);
        let at = self.cell_index(sender.value, receiver.value, place);
        self.cells[at] = row;
        let held = held + 1;
        self.circles.set(sender, receiver, Circle { start, held });
    }

    // A frame at the end of each pair that hears its sender.
    pub(crate) fn append(&mut self, frame: Frame<B>)
        requires { accepts (ring_meaning B.remade self.old) frame.sender.value ≡ true }
        ensures { ring_meaning B.remade self.new ≡ after_post (ring_meaning B.remade self.old) frame }
    {
        let sender = frame.sender;
        let row = frame.to_row();
        for receiver in 0..self.members.size() {
            if self.members.hears(sender.value, receiver) {
                self.push(sender, PrinterNumber { value: receiver }, row);
            }
        }
    }
}
