// Which record is passed on next.
ghost use Rattle.std.specs.Prelude.{◌≡◌, ◌<◌, true, IfSome};
ghost use Rattle.table.specs.Desks.{next_to_pass};
ghost use Rattle.table.specs.Passing.{qualifies, known_clock, holds_up, all_qualify, may_pass};
ghost use Rattle.table.specs.Printers.{printer_of, hearing_of};

use crate::table::{Clocks, PrinterTable};
use backlog::Ticket;
use frame::{PrinterCount, TicketNumber};

// What passing on heeds: the clocks of the active printers, or nothing, when a printer leaves. An enum and no closure:
// there are these two rules and no other, and the definitions know them by name.
#[derive(Clone, Copy)]
pub enum Heed {
    Clocks,
    Nothing,
}

// Whether a printer whose clock is known to be at `clock` can issue no ticket before this one any more.
fn qualifies(printer: u32, clock: TicketNumber, ticket: Ticket) -> bool
    ensures { result ≡ qualifies printer clock.0 ticket }
{
    ticket.number <= clock || (ticket.number.0 - clock.0 == 1 && ticket.issuer < printer)
}

impl Clocks {
    // The clock of a printer, as far as it is known to printer `me`; of one that there is not, 0.
    fn known(&self, me: u32, printer: u32) -> TicketNumber
        ensures { result.0 ≡ known_clock me (hearing_of self.now) printer }
    {
        if printer == me {
            self.own
        } else {
            self.heard
                .get(printer as usize)
                .copied()
                .unwrap_or(TicketNumber(0))
        }
    }
}

impl PrinterTable {
    // Whether a printer is active and does not qualify.
    fn holds_up(&self, ticket: Ticket, printer: u32) -> bool
        ensures { result ≡ holds_up self.now.me.value (printer_of self.now) ticket printer }
    {
        self.configuration.is_active(printer)
            && !qualifies(printer, self.clocks.known(self.me.value, printer), ticket)
    }

    // Whether every active printer qualifies.
    fn all_qualify(&self, count: PrinterCount, ticket: Ticket) -> bool
        ensures { result ≡ all_qualify count.value self.now.me.value (printer_of self.now) ticket }
    {
        !(0..count.value).any(|printer| self.holds_up(ticket, printer))
    }

    fn may_pass(&self, heed: Heed, count: PrinterCount, ticket: Ticket) -> bool
        ensures there { result ≡ true → ticket.sender < 8 }
        ensures answer { result ≡ may_pass heed count.value self.now.me.value (printer_of self.now) ticket }
    {
        self.backlog.holds(ticket.sender, ticket.message)
            && match heed {
                Heed::Clocks => self.all_qualify(count, ticket),
                Heed::Nothing => true,
            }
    }

    // The ticket that can be passed on next, into a list of so many places.
    pub(crate) fn next_to_pass(
        &self,
        heed: Heed,
        count: PrinterCount,
        places: usize,
    ) -> Option<Ticket>
        ensures there { IfSome result (λ t. (t.sender < 8) × (t.issuer < 8) × (self.now.length < places)) }
        ensures answer { result ≡ next_to_pass heed count.value self.now.me.value (printer_of self.now) places }
    {
        if self.length as usize >= places {
            return None;
        }
        self.backlog
            .first_ticket(count)
            .filter(|ticket| self.may_pass(heed, count, *ticket))
    }
}
