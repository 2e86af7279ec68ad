// The logs.
ghost use Rattle.std.specs.Prelude.{ℕ, ◌*◌, ◌<◌, ◌≤◌, vec_len, slice_index};
ghost use Rattle.transport.specs.Tables.{at_pair};

use body::Body;
use frame::FrameRow;
use transport::{Members, PairTable};

// A log of frames for each sender, in a circle of cells of its own, and a cursor for each receiver. What is waiting for a
// receiver are the last frames of the sender's log.
#[derive(Drop)]
pub struct LogTransport<B: Body> {
    pub(crate) members: Members,
    // how many cells a log has
    pub(crate) limit: usize,
    // where in its log each sender's next frame goes: fixed memory, with a place for each printer number
    pub(crate) ends: [usize; 8],
    // how many frames a receiver is behind the end of a sender's log; it counts only where the receiver is open and
    // another printer
    pub(crate) behinds: PairTable<usize>,
    // the logs, sender after sender
    pub(crate) cells: Vec<FrameRow<B::Row>>,
    ghost limit_ok: { 1 ≤ limit },
    ghost cells_ok: { members.size * limit ≤ vec_len cells },
    ghost ends_ok: { ((k : ℕ) → slice_index ends k < limit) },
    ghost behinds_ok: { ((i j : ℕ) → j < 8 → at_pair 0 behinds i j ≤ limit) },
}
