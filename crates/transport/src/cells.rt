// A transport over cells that a caller gives.
ghost use Rattle.std.specs.Prelude.{◌≡◌, ℕ, ◌/◌, List, length, Ok, Err, vec_items};
ghost use Rattle.frame.specs.declared.FrameRow.{FrameRow};
ghost use Rattle.transport.specs.Nets.{fresh, making_answer};

use crate::faults::TransportFault;
use crate::meaning::Transport;
use body::Body;
use frame::FrameRow;

// A place for a transport over cells, which may hold anything at first and can be had back.
pub trait CellTransport: Transport + Sized {
    // what lies in the cells
    ghost rows: { Self → List (FrameRow Self.Body.Row) };

    // in how many equal shares the cells go for so many printers
    ghost shares: { ℕ → ℕ };

    // An empty place, without printers.
    fn vacant(cells: Vec<FrameRow<<Self::Body as Body>::Row>>) -> Self
        ensures rows { rows result ≡ vec_items cells }
        ensures meaning { Self.meaning result ≡ fresh 0 1 };

    // Makes the transport of n printers, empty and open, whatever it was before. It is refused, and left as it was, if n is
    // below 2 or above 8, or if there are fewer cells than shares.
    fn make(&mut self, n: u32) -> Result<(), TransportFault>
        ensures answer { result ≡ making_answer n (length (rows self.old) / shares n) }
        ensures made { result ≡ Ok tt → Self.meaning self.new ≡ fresh n (length (rows self.old) / shares n) }
        ensures rows { rows self.new ≡ rows self.old }
        ensures refused { (e : _) → result ≡ Err e → self.new ≡ self.old };

    // The cells back, once the transport is over.
    fn into_cells(self) -> Vec<FrameRow<<Self::Body as Body>::Row>>
        ensures { vec_items result ≡ rows self };
}
