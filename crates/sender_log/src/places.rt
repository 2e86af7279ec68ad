// Places in the log of a sender.
ghost use Rattle.std.specs.Prelude.{◌≡◌, ◌<◌, ◌≤◌, vec_len, slice_index};
ghost use Rattle.sender_log.specs.Logs.{cell, cursor};

use crate::log::LogTransport;
use body::Body;
use transport::place_after;

impl<B: Body> LogTransport<B> {
    // The place of a receiver that is so many frames behind the end of the sender's log. That the sender is there is asked,
    // here and below: each caller has tested it.
    pub(crate) fn cursor(&self, sender: u32, behind: usize) -> usize
        requires sender_there { sender < self.now.members.size }
        requires behind_within { behind ≤ self.now.limit }
        ensures value { result ≡ cursor self.now.limit (slice_index self.now.ends sender) behind }
        ensures within { result < self.now.limit }
    {
        place_after(self.limit, self.ends[sender as usize], self.limit - behind)
    }

    // The cell of a place in the sender's log.
    pub(crate) fn cell_index(&self, sender: u32, place: usize) -> usize
        requires sender_there { sender < self.now.members.size }
        requires place_there { place < self.now.limit }
        ensures value { result ≡ cell self.now.limit sender place }
        ensures within { result < vec_len self.now.cells }
    {
        sender as usize * self.limit + place
    }
}
