// A frame put at the end of its sender's log.
ghost use Rattle.std.specs.Prelude.{◌≡◌, ℕ, ◌+◌, ◌^◌, ◌<◌, true, length};
ghost use Rattle.transport.specs.Members.{hears_in};
ghost use Rattle.transport.specs.Nets.{accepts, after_post, most_posts};
ghost use Rattle.transport.specs.Tables.{at_pair};
ghost use Rattle.sender_log.specs.Behind.{FurtherBehind};
ghost use Rattle.sender_log.specs.Meaning.{log_meaning};

use crate::log::LogTransport;
use body::Body;
use frame::{Frame, PrinterNumber};
use transport::{Members, PairTable, Queues, place_after};

// Sets each receiver that hears `sender` one frame further behind the end of its log.
fn fall_behind(behinds: &mut PairTable<usize>, members: &Members, sender: PrinterNumber)
    requires { (j : ℕ) → j < members.now.size → hears_in members.now sender.value j ≡ true → at_pair 0 behinds.old sender.value j + 1 < 2 ^ 64 }
    ensures { FurtherBehind members.now behinds.old behinds.new sender.value members.now.size }
{
    for receiver in 0..members.size() {
        if members.hears(sender.value, receiver) {
            let receiver = PrinterNumber { value: receiver };
            let behind = behinds.get(sender, receiver);
            behinds.set(sender, receiver, behind + 1);
        }
    }
}

impl<B: Body> Queues for LogTransport<B> {
    ghost queued = { λ t s j. length ((log_meaning B.remade t).waiting s j) };

    fn waiting(&self, sender: u32, receiver: u32) -> usize {
        self.waits(sender, receiver)
    }
}

impl<B: Body> LogTransport<B> {
    // How many posts the sender could make in a row: as many as its fullest pair has room for.
    pub(crate) fn posts_left(&self, sender: u32) -> usize
        ensures { result ≡ most_posts (log_meaning B.remade self.now) sender }
    {
        self.members.most_posts(sender, self.limit, self)
    }

    // Writes a frame at the end of its sender's log, once for all that hear it. None of them is a whole circle behind, so
    // the cell is free.
    pub(crate) fn append(&mut self, frame: Frame<B>)
        requires { accepts (log_meaning B.remade self.old) frame.sender.value ≡ true }
        ensures { log_meaning B.remade self.new ≡ after_post (log_meaning B.remade self.old) frame }
    {
        let sender = frame.sender.value;
        let end = self.ends[sender as usize];
        let at = self.cell_index(sender, end);
        self.cells[at] = frame.to_row();
        self.ends[sender as usize] = place_after(self.limit, end, 1);
        fall_behind(&mut self.behinds, &self.members, frame.sender);
    }
}
