// What waits for one pair. The steps are those of the other transport too, but the cells lie elsewhere and other numbers
// are kept, so each has its own.
ghost use Rattle.std.specs.Prelude.{◌≡◌, length};
ghost use Rattle.transport.specs.Nets.{oldest, after_take};
ghost use Rattle.ring.specs.Meaning.{ring_meaning};

use crate::circle::Circle;
use crate::ring::RingTransport;
use body::Body;
use frame::{Frame, PrinterNumber};
use transport::{place_after, stored_frame};

impl<B: Body> RingTransport<B> {
    // How many frames wait for a pair.
    pub(crate) fn waits(&self, sender: u32, receiver: u32) -> usize
        ensures { result ≡ length ((ring_meaning B.remade self.now).waiting sender receiver) }
    {
        if !self.members.reaches(sender, receiver) {
            return 0;
        }
        let sender = PrinterNumber { value: sender };
        let receiver = PrinterNumber { value: receiver };
        self.circles.get(sender, receiver).held
    }

    // The oldest frame of a pair.
    pub(crate) fn oldest_of(&self, sender: u32, receiver: u32) -> Option<Frame<B>>
        ensures { result ≡ oldest (ring_meaning B.remade self.now) sender receiver }
    {
        if self.waits(sender, receiver) == 0 {
            return None;
        }
        let from = PrinterNumber { value: sender };
        let to = PrinterNumber { value: receiver };
        let start = self.circles.get(from, to).start;
        let at = self.cell_index(sender, receiver, start);
        Some(stored_frame::<B>(self.cells[at]))
    }

    // Removes the oldest frame of a pair: its cell is free again, and the next frame is the oldest.
    pub(crate) fn drop_oldest(&mut self, sender: u32, receiver: u32)
        ensures { ring_meaning B.remade self.new ≡ after_take (ring_meaning B.remade self.old) sender receiver }
    {
        if self.waits(sender, receiver) == 0 {
            return;
        }
        let sender = PrinterNumber { value: sender };
        let receiver = PrinterNumber { value: receiver };
        let Circle { start, held } = self.circles.get(sender, receiver);
        let start = place_after(self.limit, start, 1);
        let held = held - 1;
        self.circles.set(sender, receiver, Circle { start, held });
    }
}
