// Refusals of a printer's own.
ghost use Rattle.std.specs.Prelude.{◌≡◌};
ghost use Rattle.refusals.specs.Faults.{refused_by};

use refusals::{PrinterFault, PrinterRefusal};
use table::PrinterTable;

pub(crate) fn refused(table: &PrinterTable, refusal: PrinterRefusal) -> PrinterFault
    ensures { result ≡ refused_by table.now.me.value refusal }
{
    PrinterFault::Printer {
        refusal,
        printer: table.me.value,
    }
}
