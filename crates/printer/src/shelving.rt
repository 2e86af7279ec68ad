// Bodies on a printer's shelf.
ghost use Rattle.std.specs.Prelude.{◌≡◌, slice_set};
ghost use Rattle.table.specs.Records.{shelf_place};

use frame::{MessageNumber, PrinterNumber};
use table::shelf_place;

// Lays the body of a message in its place.
pub(crate) fn lay<R: Copy>(shelf: &mut [R], sender: PrinterNumber, number: MessageNumber, row: R)
    ensures { shelf.new ≡ slice_set shelf.old (shelf_place sender.value number.0) row }
{
    // tested and set, since the proof over `get_mut` did not close
    let place = shelf_place(sender.value, number);
    if place < shelf.len() {
        shelf[place] = row;
    }
}
