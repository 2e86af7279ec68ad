// The delays from a printer to those of its hall.
ghost use Rattle.std.specs.Prelude.{◌≡◌, ◌<◌, length};

use frame::PrinterCount;

// A delay for each printer of the hall. Clauses tell it by its length and by `delay_in`, since the definitions take a
// number of printers and a function.
#[derive(Clone, Copy)]
pub struct Delays<'a> {
    pub row: &'a [u16],
    ghost few: { length row.now < 9 },
}

impl Delays<'_> {
    // How many printers the hall has.
    pub fn count(&self) -> PrinterCount
        ensures { result.value ≡ length self.now.row.now }
    {
        PrinterCount {
            value: self.row.len() as u32,
        }
    }
}
