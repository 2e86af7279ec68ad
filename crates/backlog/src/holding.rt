// Holding messages and tickets, and letting them go.
ghost use Rattle.std.specs.Prelude.{◌≡◌, ◌+◌, ◌<◌, ◌≤◌, true, length, slice_index_or};
ghost use Rattle.backlog.specs.Blanks.{no_held};
ghost use Rattle.backlog.specs.Sweeps.{Swept};
ghost use Rattle.backlog.specs.Holdings.{assign_to, is_between, holding_of, nothing_held, message_row, reassigned_row, number_at, hold_message, hold_ticket, pass_first, drop_messages, reassigned, reassigned_all, holds_message, message_at};

use crate::backlog::Backlog;
use crate::rows::{Held, Row, Stub};
use frame::{MessageNumber, PrinterNumber, RoleNumber, TicketNumber};
use roles::RecordKind;

const NO_HELD: Held = Held {
    kind: RecordKind::Data,
    assigned: (0, RoleNumber(0)),
};

const NO_STUB: Stub = Stub {
    number: TicketNumber(0),
    sender: 0,
    message: MessageNumber(0),
};

impl Backlog {
    // Nothing held, and nothing passed on.
    pub fn open() -> Backlog
        ensures { holding_of result ≡ nothing_held }
    {
        Backlog {
            messages: [Row::empty(NO_HELD); 8],
            tickets: [Row::empty(NO_STUB); 8],
        }
    }

    pub fn hold_message(&mut self, sender: PrinterNumber, number: MessageNumber, message: Held)
        requires room { ((holding_of self.old).messages sender.value).count < 8 }
        ensures { holding_of self.new ≡ hold_message (holding_of self.old) sender.value number.0 message }
    {
        let row = &mut self.messages[sender.index()];
        row.store(number.0, message);
    }

    pub fn hold_ticket(&mut self, issuer: PrinterNumber, stub: Stub)
        requires room { ((holding_of self.old).tickets issuer.value).count < 16 }
        ensures { holding_of self.new ≡ hold_ticket (holding_of self.old) issuer.value stub }
    {
        let row = &mut self.tickets[issuer.index()];
        row.store(row.passed + row.count, stub);
    }
}

// Of the eight numbers after `passed` the one that lies at a place.
fn number_at(passed: u32, place: usize) -> u32
    requires place_bound { place < 8 }
    requires passed_bound { passed ≤ 65536 }
    ensures { result ≡ number_at passed place }
{
    let next = passed + 1;
    next + (place as u32 + 8 - next % 8) % 8
}

// Gives the messages of a row after `last` up to `sent` to another sequencer; `passed` was passed on before them.
fn reassign_slots(
    slots: &mut [Held],
    passed: u32,
    last: u32,
    sent: u32,
    assigned: (u32, RoleNumber),
)
    requires passed_bound { passed ≤ 65536 }
    requires slots_len { length slots.old ≡ 8 }
    ensures { Swept no_held (λ i. slice_index_or slots.old i no_held) (λ i. is_between last sent (number_at passed i)) (assign_to assigned) slots.new 8 }
{
    for (place, held) in slots.iter_mut().enumerate() {
        let number = number_at(passed, place);
        if last < number && number <= sent {
            held.assigned = assigned;
        }
    }
}

impl Row<Held, 8> {
    // Whether the message with this number is held.
    fn holds(&self, number: MessageNumber) -> bool
        ensures { result ≡ is_between self.now.passed (self.now.passed + self.now.count) number.0 }
    {
        self.passed < number.0 && number.0 <= self.passed + self.count
    }

    // Gives the held messages after `last` up to `sent` to another sequencer.
    fn reassign(&mut self, last: u32, sent: u32, assigned: (u32, RoleNumber))
        ensures { message_row self.new ≡ reassigned_row (message_row self.old) last sent assigned }
    {
        let end = sent.min(self.passed + self.count);
        reassign_slots(&mut self.slots, self.passed, last, end, assigned);
    }
}

impl Backlog {
    // Gives the held messages of a sender after `last` up to `sent` to another sequencer. The three come as fields of a
    // frame and are used once, each for itself.
    pub fn reassign(
        &mut self,
        sender: PrinterNumber,
        last: MessageNumber,
        sent: MessageNumber,
        assigned: (u32, RoleNumber),
    )
        ensures { holding_of self.new ≡ reassigned (holding_of self.old) sender.value last.0 sent.0 assigned }
    {
        self.messages[sender.index()].reassign(last.0, sent.0, assigned);
    }

    // Gives all held messages of a sender to another sequencer.
    pub fn reassign_all(&mut self, sender: PrinterNumber, assigned: (u32, RoleNumber))
        ensures { holding_of self.new ≡ reassigned_all (holding_of self.old) sender.value assigned }
    {
        let row = &mut self.messages[sender.index()];
        row.reassign(row.passed, row.passed + row.count, assigned);
    }

    // Whether a message of a sender is held.
    pub fn holds(&self, sender: u32, number: MessageNumber) -> bool
        ensures answer { result ≡ holds_message (holding_of self.now) sender number.0 }
        ensures there { result ≡ true → sender < 8 }
    {
        self.messages
            .get(sender as usize)
            .is_some_and(|row| row.holds(number))
    }

    // What is kept of a held message.
    pub fn message(&self, sender: PrinterNumber, number: MessageNumber) -> Held
        ensures { result ≡ message_at (holding_of self.now) sender.value number.0 }
    {
        self.messages[sender.index()].slot(number.0)
    }

    // The first held message of a sender and the first held ticket of an issuer are passed on.
    pub fn pass_first(&mut self, sender: PrinterNumber, issuer: PrinterNumber)
        requires sender_low { ((holding_of self.old).messages sender.value).passed < 65536 }
        requires issuer_low { ((holding_of self.old).tickets issuer.value).passed < 65536 }
        ensures { holding_of self.new ≡ pass_first (holding_of self.old) sender.value issuer.value }
    {
        self.messages[sender.index()].pop();
        self.tickets[issuer.index()].pop();
    }

    // No message of a sender is held any more.
    pub fn drop_messages(&mut self, sender: PrinterNumber)
        ensures { holding_of self.new ≡ drop_messages (holding_of self.old) sender.value }
    {
        self.messages[sender.index()].clear();
    }
}
