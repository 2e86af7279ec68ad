// What waits for one pair. The steps are those of the other transport too, but the cells lie elsewhere and other numbers
// are kept, so each has its own.
ghost use Rattle.std.specs.Prelude.{◌≡◌, ◌≤◌, length};
ghost use Rattle.transport.specs.Nets.{oldest, after_take};
ghost use Rattle.sender_log.specs.Meaning.{log_meaning};

use crate::log::LogTransport;
use body::Body;
use frame::{Frame, PrinterNumber};
use transport::stored_frame;

impl<B: Body> LogTransport<B> {
    // How many frames wait for a pair.
    pub(crate) fn waits(&self, sender: u32, receiver: u32) -> usize
        ensures value { result ≡ length ((log_meaning B.remade self.now).waiting sender receiver) }
        ensures within { result ≤ self.now.limit }
    {
        if receiver == sender || !self.members.reaches(sender, receiver) {
            return 0;
        }
        let sender = PrinterNumber { value: sender };
        let receiver = PrinterNumber { value: receiver };
        self.behinds.get(sender, receiver)
    }

    // The oldest frame of a pair.
    pub(crate) fn oldest_of(&self, sender: u32, receiver: u32) -> Option<Frame<B>>
        ensures { result ≡ oldest (log_meaning B.remade self.now) sender receiver }
    {
        let behind = self.waits(sender, receiver);
        if behind == 0 {
            return None;
        }
        let at = self.cell_index(sender, self.cursor(sender, behind));
        Some(stored_frame::<B>(self.cells[at]))
    }

    // Removes the oldest frame of a pair: its receiver is one frame nearer to the end of the log.
    pub(crate) fn drop_oldest(&mut self, sender: u32, receiver: u32)
        ensures { log_meaning B.remade self.new ≡ after_take (log_meaning B.remade self.old) sender receiver }
    {
        let behind = self.waits(sender, receiver);
        if behind == 0 {
            return;
        }
        let sender = PrinterNumber { value: sender };
        let receiver = PrinterNumber { value: receiver };
        self.behinds.set(sender, receiver, behind - 1);
    }
}
