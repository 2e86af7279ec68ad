// Questions to a configuration.
ghost use Rattle.std.specs.Prelude.{◌≡◌};
ghost use Rattle.roles.specs.Configurations.{conf_of, opening_conf, is_active, remains, own_pair, serves, another_active};
ghost use Rattle.roles.specs.Functions.{any_below};

use crate::seats::{Configuration, Rank, Seat};
use frame::{PrinterCount, PrinterNumber, RoleNumber};

const NO_SEAT: Seat = Seat {
    rank: Rank::Removed,
    role: RoleNumber(0),
};

const FIRST_SEAT: Seat = Seat {
    rank: Rank::Active,
    role: RoleNumber(0),
};

impl Configuration {
    // All printers active, under role number 0.
    pub fn open() -> Configuration
        ensures { conf_of result ≡ opening_conf }
    {
        Configuration {
            seats: [FIRST_SEAT; 8],
        }
    }

    // What is said of a printer; of one that there is not, that it is removed.
    pub fn seat(&self, printer: u32) -> Seat
        ensures { result ≡ conf_of self.now printer }
    {
        self.seats.get(printer as usize).copied().unwrap_or(NO_SEAT)
    }

    pub fn is_active(&self, printer: u32) -> bool
        ensures { result ≡ is_active (conf_of self.now) printer }
    {
        self.seat(printer).rank == Rank::Active
    }

    pub(crate) fn remains(&self, printer: u32) -> bool
        ensures { result ≡ remains (conf_of self.now printer).rank }
    {
        self.seat(printer).rank != Rank::Removed
    }

    // A printer with its role number.
    pub fn pair_of(&self, printer: u32) -> (u32, RoleNumber)
        ensures { result ≡ own_pair (conf_of self.now) printer }
    {
        (printer, self.seat(printer).role)
    }

    // Whether the printer of a pair is active under its role number.
    pub fn serves(&self, pair: (u32, RoleNumber)) -> bool
        ensures { result ≡ serves (conf_of self.now) pair }
    {
        self.is_active(pair.0) && self.pair_of(pair.0) == pair
    }

    // Whether any printer is active.
    pub(crate) fn any_active(&self, count: PrinterCount) -> bool
        ensures { result ≡ any_below count.value (is_active (conf_of self.now)) }
    {
        (0..count.value).any(|printer| self.is_active(printer))
    }

    // Whether a printer other than this one is active. A line of its own: of one function for both, each caller would have
    // to say whom it leaves out, or that it leaves out none.
    pub(crate) fn another_active(&self, count: PrinterCount, printer: PrinterNumber) -> bool
        ensures { result ≡ another_active count.value (conf_of self.now) printer.value }
    {
        (0..count.value).any(|other| self.is_active(other) && other != printer.value)
    }
}
