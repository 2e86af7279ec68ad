// The held tickets. Chains go over the rows themselves, which takes less time than to pick each by its number; only the
// sum, which is seldom asked, goes over `0..count`.
ghost use Rattle.std.specs.Prelude.{◌≡◌, ◌<◌, ◌≤◌, IfSome};
ghost use Rattle.backlog.specs.Holdings.{holding_of, ticket_row};
ghost use Rattle.backlog.specs.Tickets.{is_for, before, lesser, first_or, first_ticket, names, ticketed, tickets_held};

use crate::backlog::Backlog;
use crate::rows::{Row, Stub, Ticket};
use frame::{MessageNumber, PrinterCount};

impl Ticket {
    // Tickets stand by number, then by issuer.
    fn is_before(self, other: Ticket) -> bool
        ensures { result ≡ before self other }
    {
        (self.number, self.issuer) < (other.number, other.issuer)
    }

    // The one that stands first.
    fn or_before(self, other: Option<Ticket>) -> Option<Ticket>
        ensures { result ≡ lesser self other }
    {
        match other {
            Some(ticket) if !self.is_before(ticket) => other,
            _ => Some(self),
        }
    }
}

impl Stub {
    fn is_for(self, sender: u32, message: MessageNumber) -> bool
        ensures { result ≡ is_for self sender message.0 }
    {
        self.sender == sender && self.message == message
    }
}

impl Row<Stub, 16> {
    // The first of this issuer's held tickets, if it stands before another.
    fn first_or(&self, issuer: u32, other: Option<Ticket>) -> Option<Ticket>
        ensures { result ≡ first_or issuer (ticket_row self.now) other }
    {
        if self.count == 0 {
            return other;
        }
        let Stub {
            number,
            sender,
            message,
        } = self.slot(self.passed);
        let ticket = Ticket {
            number,
            issuer,
            sender,
            message,
        };
        ticket.or_before(other)
    }

    // Whether a held ticket names this message. They are asked from the last one down: to compare with 0 at each takes
    // less time than to compare with the count.
    fn names(&self, sender: u32, message: MessageNumber) -> bool
        ensures { result ≡ names (ticket_row self.now) sender message.0 }
    {
        (0..self.count)
            .rev()
            .any(|i| self.slot(self.passed + i).is_for(sender, message))
    }
}

impl Backlog {
    // The first held ticket of all issuers.
    pub fn first_ticket(&self, count: PrinterCount) -> Option<Ticket>
        ensures answer { result ≡ first_ticket count.value (holding_of self.now) }
        ensures there { IfSome result (λ t. (t.issuer < count.value) × (0 < ((holding_of self.now).tickets t.issuer).count)) }
    {
        self.tickets
            .iter()
            .zip(0..count.value)
            .fold(None, |first, (row, issuer)| row.first_or(issuer, first))
    }

    // Whether a message has a ticket.
    pub(crate) fn is_ticketed(
        &self,
        count: PrinterCount,
        sender: u32,
        message: MessageNumber,
    ) -> bool
        ensures { result ≡ ticketed count.value (holding_of self.now) sender message.0 }
    {
        self.tickets[..count.value as usize]
            .iter()
            .any(|row| row.names(sender, message))
    }

    // How many tickets of this issuer are held.
    fn held_of(&self, issuer: u32) -> u32
        requires { issuer < 8 }
        ensures answer { result ≡ ((holding_of self.now).tickets issuer).count }
        ensures few { result ≤ 16 }
    {
        let row = &self.tickets[issuer as usize];
        row.count
    }

    // How many tickets are held.
    pub fn tickets_held(&self, count: PrinterCount) -> u32
        ensures { result ≡ tickets_held count.value (holding_of self.now) }
    {
        (0..count.value).map(|issuer| self.held_of(issuer)).sum()
    }
}
