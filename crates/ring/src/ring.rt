// The rings.
ghost use Rattle.std.specs.Prelude.{ℕ, ◌*◌, ◌<◌, ◌≤◌, vec_len};
ghost use Rattle.transport.specs.Tables.{at_pair};
ghost use Rattle.ring.specs.Circles.{Within, empty_circle};

use crate::circle::Circle;
use body::Body;
use frame::FrameRow;
use transport::{Members, PairTable};

// A ring for each ordered pair of printers, over one row of cells that the caller gives.
// What the table has for the pairs to a closed printer counts no more.
#[derive(Drop)]
pub struct RingTransport<B: Body> {
    pub(crate) members: Members,
    pub(crate) limit: usize,
    pub(crate) circles: PairTable<Circle>,
    pub(crate) cells: Vec<FrameRow<B::Row>>,
    ghost limit_ok: { 1 ≤ limit },
    ghost cells_ok: { members.size * members.size * limit ≤ vec_len cells },
    ghost circles_ok: { ((i j : ℕ) → j < 8 → Within limit (at_pair empty_circle circles i j)) },
}
