// The rings as a transport. It is alike to the other one, and stays an impl of its own: what both do alike stands in crate
// `transport`, and what is left asks fields and methods of this struct, a line for each call.
ghost use Rattle.std.specs.Prelude.{◌≡◌, ◌≤◌};
ghost use Rattle.transport.specs.Nets.{after_post, most_posts, post_answer};
ghost use Rattle.ring.specs.Meaning.{ring_meaning};

use crate::ring::RingTransport;
use body::Body;
use frame::{Frame, Payload, PrinterNumber};
use transport::{Transport, TransportFault, judge_post};

impl<B: Body> Transport for RingTransport<B> {
    type Body = B;

    ghost meaning = { ring_meaning B.remade };

    ghost limited = { λ t. t.limit_ok };

    fn post(&mut self, sender: PrinterNumber, payload: Payload<B>) -> Result<(), TransportFault>
        ensures answer { result ≡ post_answer (ring_meaning B.remade self.old) sender.value }
        ensures after { ring_meaning B.remade self.new ≡ after_post (ring_meaning B.remade self.old) (record { sender = sender; payload = payload }) }
    {
        judge_post(self.posts_left(sender.value), sender.value)?;
        self.append(Frame { sender, payload });
        Ok(())
    }

    fn look(&mut self, sender: u32, receiver: u32) -> Option<Frame<B>> {
        self.oldest_of(sender, receiver)
    }

    fn take(&mut self, sender: u32, receiver: u32) {
        self.drop_oldest(sender, receiver);
    }

    // A closed printer never opens again, so that what waits for it need not be cleared.
    fn close(&mut self, printer: u32) {
        self.members.shut(printer);
    }

    // Exactly the number of posts that the sender could make in a row.
    fn spare(&mut self, sender: u32) -> usize
        ensures bound { result ≤ most_posts (ring_meaning B.remade self.old) sender }
        ensures same { ring_meaning B.remade self.new ≡ ring_meaning B.remade self.old }
        ensures exact { result ≡ most_posts (ring_meaning B.remade self.old) sender }
    {
        self.posts_left(sender)
    }

    fn printers(&mut self) -> u32 {
        self.members.size()
    }

    fn is_open(&mut self, printer: u32) -> bool {
        self.members.is_open(printer)
    }
}
