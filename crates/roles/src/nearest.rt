// The nearest active printer.
ghost use Rattle.std.specs.Prelude.{◌≡◌, length};
ghost use Rattle.std.specs.Option.{option_map};
ghost use Rattle.roles.specs.Configurations.{conf_of};
ghost use Rattle.roles.specs.Nearest.{nearest, Nearest, delay_in};

use crate::delays::Delays;
use crate::seats::Configuration;
use frame::PrinterNumber;

impl Configuration {
    // Of the active printers the one with the least delay, and the lowest number among equals.
    pub fn nearest(&self, delays: &Delays) -> Option<PrinterNumber>
        ensures value { option_map (λ p. p.value) result ≡ nearest (length delays.now.row.now) (conf_of self.now) (delay_in delays.now.row.now) }
        ensures least { Nearest (length delays.now.row.now) (conf_of self.now) (delay_in delays.now.row.now) (option_map (λ p. p.value) result) }
    {
        let mut best: Option<PrinterNumber> = None;
        // By a rule of the project a row that is walked with its index is walked by a `for`.
        for (printer, delay) in delays.row.iter().enumerate() {
            let value = printer as u32;
            let nearer = match best {
                Some(other) => *delay < delays.row[other.index()],
                None => true,
            };
            if nearer && self.is_active(value) {
                best = Some(PrinterNumber { value });
            }
        }
        best
    }
}
