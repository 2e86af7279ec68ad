// A transport, known by what it means.
ghost use Rattle.std.specs.Prelude.{◌≡◌, ◌≤◌};
ghost use Rattle.transport.specs.Nets.{Net, post_answer, after_post, oldest, after_take, after_close, most_posts, is_open};

use crate::faults::TransportFault;
use body::Body;
use frame::{Frame, Payload, PrinterNumber};

// Frames between the printers of a hall. What it means: how many printers there are, which of them are open, the frames
// that wait for each ordered pair, and the limit of a pair, which is at least 1 and never changes.
// Questions take the transport for writing, since looking may move what lies inside; they leave what it means as it was.
// Nothing is asked of a caller: a printer number that there is not is answered too.
pub trait Transport {
    type Body: Body;

    ghost meaning: { Self → Net Self.Body };

    // Appends a frame to the pairs from its sender to every other open printer. It is refused if one of them is full, or
    // if there is no such sender.
    fn post(
        &mut self,
        sender: PrinterNumber,
        payload: Payload<Self::Body>,
    ) -> Result<(), TransportFault>
        ensures answer { result ≡ post_answer (meaning self.old) sender.value }
        ensures after { meaning self.new ≡ after_post (meaning self.old) (record { sender = sender; payload = payload }) };

    // The oldest frame of a pair.
    fn look(&mut self, sender: u32, receiver: u32) -> Option<Frame<Self::Body>>
        ensures answer { result ≡ oldest (meaning self.old) sender receiver }
        ensures same { meaning self.new ≡ meaning self.old };

    // Removes the oldest frame of a pair, if there is one.
    fn take(&mut self, sender: u32, receiver: u32)
        ensures { meaning self.new ≡ after_take (meaning self.old) sender receiver };

    // Empties the pairs to a printer and closes it.
    fn close(&mut self, printer: u32)
        ensures { meaning self.new ≡ after_close (meaning self.old) printer };

    // At most the number of posts that the sender could make in a row, and at most the limit.
    fn spare(&mut self, sender: u32) -> usize
        ensures bound { result ≤ most_posts (meaning self.old) sender }
        ensures same { meaning self.new ≡ meaning self.old };

    // How many printers there are.
    fn printers(&mut self) -> u32
        ensures answer { result ≡ (meaning self.old).size }
        ensures same { meaning self.new ≡ meaning self.old };

    // Whether there is such a printer and it is open.
    fn is_open(&mut self, printer: u32) -> bool
        ensures answer { result ≡ is_open (meaning self.old) printer }
        ensures same { meaning self.new ≡ meaning self.old };

    ghost limited: { (t : Self) → 1 ≤ (meaning t).limit };
}
