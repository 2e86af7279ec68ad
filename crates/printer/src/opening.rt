// A printer for the opening of a hall.
ghost use Rattle.std.specs.Prelude.{◌≡◌};
ghost use Rattle.table.specs.Printers.{opening};
ghost use Rattle.printer.specs.Views.{number_of, kept_by};

use crate::printer::Printer;
use frame::{PrinterNumber, TicketNumber};
use table::PrinterTable;

impl Printer {
    // Printer `me`: active and its own sequencer, all clocks at the start, nothing held or owed.
    pub fn open(me: PrinterNumber, start: TicketNumber) -> Printer
        ensures table { kept_by result ≡ opening me.value start.0 }
        ensures number { number_of result ≡ me.value }
    {
        Printer {
            table: PrinterTable::open(me, start),
        }
    }
}
