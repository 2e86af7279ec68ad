// One printer's table: what it keeps, what is due of it, and how it delivers.
#![tactic(auto)]

mod delivering;
mod dues;
mod duty;
mod effects;
mod leaving;
mod opening;
mod passing;
mod records;
mod table;

pub use dues::Due;
pub use duty::{Duty, PrinterState};
pub use passing::Heed;
pub use records::{Record, shelf_place};
pub use table::{Clocks, PrinterTable};
