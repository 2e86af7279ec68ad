// Making a log transport. Alike to the making of the other one: what differs is the share of cells and what is kept for a
// pair, so each has its own few lines over the parts in crate `transport`.
ghost use Rattle.std.specs.Prelude.{◌≡◌, ◌*◌, ◌/◌, ◌≤◌, Ok, Err, vec_items, vec_len};
ghost use Rattle.transport.specs.Nets.{fresh, making_answer};
ghost use Rattle.sender_log.specs.Meaning.{log_meaning};

use crate::log::LogTransport;
use body::Body;
use frame::{FrameRow, PrinterCount};
use transport::{CellTransport, Members, PairTable, TransportFault, fair_limit};

impl<B: Body> LogTransport<B> {
    // The logs of n printers, all empty and open. What it asks is what `fair_limit` tests for `make`, which answers any n.
    fn start(&mut self, n: u32, limit: usize)
        requires at_most_eight { n ≤ 8 }
        requires some_limit { 1 ≤ limit }
        requires enough_cells { n * limit ≤ vec_len self.old.cells }
        ensures meaning { log_meaning B.remade self.new ≡ fresh n limit }
        ensures cells { self.new.cells ≡ self.old.cells }
    {
        self.members = Members::all_open(PrinterCount { value: n });
        self.limit = limit;
        self.ends = [0; 8];
        self.behinds = PairTable::filled(0);
    }
}

impl<B: Body> CellTransport for LogTransport<B> {
    ghost rows = { λ t. vec_items t.cells };

    // Each sender's log gets an equal share.
    ghost shares = { λ n. n };

    fn vacant(cells: Vec<FrameRow<B::Row>>) -> LogTransport<B>
        ensures rows { vec_items result.cells ≡ vec_items cells }
        ensures meaning { log_meaning B.remade result ≡ fresh 0 1 }
        ensures cells { result.cells ≡ cells }
    {
        LogTransport {
            members: Members::all_open(PrinterCount { value: 0 }),
            limit: 1,
            ends: [0; 8],
            behinds: PairTable::filled(0),
            cells,
        }
    }

    fn make(&mut self, n: u32) -> Result<(), TransportFault>
        ensures answer { result ≡ making_answer n (vec_len self.old.cells / n) }
        ensures made { result ≡ Ok tt → log_meaning B.remade self.new ≡ fresh n (vec_len self.old.cells / n) }
        ensures rows { vec_items self.new.cells ≡ vec_items self.old.cells }
        ensures refused { (e : _) → result ≡ Err e → self.new ≡ self.old }
        ensures cells { self.new.cells ≡ self.old.cells }
    {
        let limit = fair_limit(n, self.cells.len(), n as usize)?;
        self.start(n, limit);
        Ok(())
    }

    fn into_cells(self) -> Vec<FrameRow<B::Row>>
        ensures rows { vec_items result ≡ vec_items self.cells }
        ensures cells { result ≡ self.cells }
    {
        self.cells
    }
}
