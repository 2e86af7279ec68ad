// The refusals of a printer, and the faults that name them or one of the transport.
#![tactic(auto)]

mod faults;

pub use faults::{PrinterFault, PrinterRefusal};
