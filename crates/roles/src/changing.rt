// What records change in a configuration.
ghost use Rattle.std.specs.Prelude.{◌≡◌, ℕ, ◌<◌};
ghost use Rattle.std.specs.Option.{option_map};
ghost use Rattle.roles.specs.Functions.{highest};
ghost use Rattle.roles.specs.Configurations.{conf_of, appointed, after_up, after_down, without, promoted, remains, changed};

use crate::seats::{Configuration, Rank, RecordKind, Seat};
use frame::{PrinterCount, PrinterNumber, RoleNumber};

impl Configuration {
    // A printer gets a rank, under its next role number.
    fn appoint(&mut self, printer: PrinterNumber, rank: Rank)
        requires { (conf_of self.old printer.value).role.0 < 4294967295 }
        ensures { conf_of self.new ≡ appointed (conf_of self.old) printer.value rank }
    {
        let RoleNumber(role) = self.seats[printer.index()].role;
        self.seats[printer.index()] = Seat {
            rank,
            role: RoleNumber(role + 1),
        };
    }

    // A passive printer becomes active; any other stays as it is.
    fn raise(&mut self, printer: PrinterNumber)
        requires { (conf_of self.old printer.value).role.0 < 4294967295 }
        ensures { conf_of self.new ≡ after_up (conf_of self.old) printer.value }
    {
        if self.seat(printer.value).rank == Rank::Passive {
            self.appoint(printer, Rank::Active);
        }
    }

    // A printer becomes passive, if another is active.
    fn lower(&mut self, count: PrinterCount, printer: PrinterNumber)
        requires { (conf_of self.old printer.value).role.0 < 4294967295 }
        ensures { conf_of self.new ≡ after_down count.value (conf_of self.old) printer.value }
    {
        if self.another_active(count, printer) {
            self.appoint(printer, Rank::Passive);
        }
    }

    // The highest number of those that remain.
    fn highest_remaining(&self, count: PrinterCount) -> Option<PrinterNumber>
        ensures { option_map (λ p. p.value) result ≡ highest count.value (λ a. remains (conf_of self.now a).rank) }
    {
        let value = (0..count.value)
            .rev()
            .find(|printer| self.remains(*printer))?;
        Some(PrinterNumber { value })
    }

    // If none is active, the highest that remains becomes active.
    fn promote(&mut self, count: PrinterCount)
        requires { (a : ℕ) → (conf_of self.old a).role.0 < 4294967295 }
        ensures { conf_of self.new ≡ promoted count.value (conf_of self.old) }
    {
        if self.any_active(count) {
            return;
        }
        if let Some(printer) = self.highest_remaining(count) {
            self.appoint(printer, Rank::Active);
        }
    }

    // A printer that has left is removed, and keeps its role number.
    fn remove(&mut self, printer: PrinterNumber)
        ensures { conf_of self.new ≡ without (conf_of self.old) printer.value }
    {
        self.seats[printer.index()].rank = Rank::Removed;
    }

    // What a record changes, in a hall of so many printers. The bound on role numbers is asked: a configuration does not
    // know how long the list is that bounds them.
    pub fn record(&mut self, count: PrinterCount, kind: RecordKind, printer: PrinterNumber)
        requires role_bound { (a : ℕ) → (conf_of self.old a).role.0 < 4294967295 }
        ensures { conf_of self.new ≡ changed count.value (conf_of self.old) kind printer.value }
    {
        match kind {
            RecordKind::Data => {}
            RecordKind::Up => self.raise(printer),
            RecordKind::Down => self.lower(count, printer),
            RecordKind::Gone => {
                self.remove(printer);
                self.promote(count);
            }
        }
    }
}
