// A printer of a hall.
use table::PrinterTable;

// A printer, known by its table. Its steps change that table, its parts of the two stores, and the transport.
#[derive(Clone, Copy)]
pub struct Printer {
    pub table: PrinterTable,
}
