// A table for the opening of a hall.
ghost use Rattle.std.specs.Prelude.{◌≡◌};
ghost use Rattle.table.specs.Printers.{hearing_of, printer_of, opening, opening_clocks};

use crate::duty::{Duty, PrinterState};
use crate::table::{Clocks, PrinterTable};
use backlog::Backlog;
use frame::{PrinterNumber, RoleNumber, TicketNumber};
use roles::Configuration;

impl Clocks {
    // All clocks at the start.
    fn at(start: TicketNumber) -> Clocks
        ensures { hearing_of result ≡ opening_clocks start.0 }
    {
        Clocks {
            own: start,
            posted: start,
            heard: [start; 8],
        }
    }
}

impl PrinterTable {
    // The table of printer `me`: active and its own sequencer, all clocks at the start, nothing held or owed.
    pub fn open(me: PrinterNumber, start: TicketNumber) -> PrinterTable
        ensures table { printer_of result ≡ opening me.value start.0 }
        ensures me { result.me ≡ me }
    {
        PrinterTable {
            me,
            clocks: Clocks::at(start),
            duty: Duty {
                state: PrinterState::Active,
                sequencer: (me.value, RoleNumber(0)),
                owes: false,
                turn: 0,
            },
            configuration: Configuration::open(),
            backlog: Backlog::open(),
            length: 0,
        }
    }
}
