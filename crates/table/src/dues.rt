// The frames that a printer is to post.
ghost use Rattle.std.specs.Prelude.{◌≡◌, ◌<◌, true, IfSome};
ghost use Rattle.std.specs.Option.{option_map};
ghost use Rattle.table.specs.Dues.{may_ticket, ticket_due, clock_due, due, FitsTicket, FitsDue};
ghost use Rattle.table.specs.Printers.{printer_of};

use crate::table::PrinterTable;
use frame::{MessageNumber, PrinterCount, PrinterNumber};

// What is due of a printer.
#[derive(Clone, Copy)]
pub enum Due {
    // that its undelivered messages have another sequencer
    Reassignment,
    // a ticket for this message; its sender is a plain number, as in the definitions of what is due, which are of all
    // numbers
    Ticket { sender: u32, message: MessageNumber },
    // its clock, and nothing else
    Clock,
}

impl PrinterTable {
    // Whether the printer issues tickets now.
    fn may_ticket(&self, count: PrinterCount) -> bool
        ensures room { result ≡ true → ((printer_of self.now).holding.tickets self.now.me.value).count < 16 }
        ensures answer { result ≡ may_ticket count.value self.now.me.value (printer_of self.now) }
    {
        self.configuration.is_active(self.me.value)
            && !self.backlog.is_down_ticketed(count, self.me)
            && self.backlog.tickets[self.me.index()].count < 16
    }

    // The message that is to get the next ticket.
    fn ticket_due(&self, count: PrinterCount) -> Option<(PrinterNumber, MessageNumber)>
        ensures fits { IfSome result (λ m. FitsTicket self.now.me.value (printer_of self.now) m.0.value m.1) }
        ensures answer { option_map (λ m. (m.0.value, m.1)) result ≡ ticket_due count.value self.now.me.value (printer_of self.now) }
    {
        if !self.may_ticket(count) {
            return None;
        }
        let own = self.configuration.pair_of(self.me.value);
        self.backlog.wanted(count, own, self.duty.turn)
    }

    fn is_clock_due(&self) -> bool
        ensures { result ≡ clock_due self.now.me.value (printer_of self.now) }
    {
        self.configuration.is_active(self.me.value) && self.clocks.posted < self.clocks.own
    }

    // The first frame that is due, in a hall of so many printers.
    pub fn due(&self, count: PrinterCount) -> Option<Due>
        ensures answer { result ≡ due count.value self.now.me.value (printer_of self.now) }
        ensures fits { IfSome result (FitsDue self.now.me.value (printer_of self.now)) }
    {
        if self.duty.owes {
            return Some(Due::Reassignment);
        }
        if let Some((sender, message)) = self.ticket_due(count) {
            let sender = sender.value;
            return Some(Due::Ticket { sender, message });
        }
        self.is_clock_due().then_some(Due::Clock)
    }
}
