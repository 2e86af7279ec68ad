// Which held message is to get a ticket.
ghost use Rattle.std.specs.Prelude.{◌≡◌, ◌+◌, ◌%◌, ◌<◌, ◌≤◌, IfSome};
ghost use Rattle.std.specs.Option.{option_map};
ghost use Rattle.backlog.specs.Holdings.{holding_of};
ghost use Rattle.backlog.specs.Wanted.{wants, wanted_of, wanted, down_ticketed, is_ticketed_down};

use crate::backlog::Backlog;
use frame::{MessageNumber, PrinterCount, PrinterNumber, RoleNumber};
use roles::RecordKind;
use std::ops::Range;

impl Backlog {
    // Whether a message is assigned to this sequencer and has no ticket. `count` and `to` go from function to function as
    // two: one caller asks with them, for itself, and they are no value of their own.
    fn wants(
        &self,
        count: PrinterCount,
        to: (u32, RoleNumber),
        sender: PrinterNumber,
        message: MessageNumber,
    ) -> bool
        ensures { result ≡ wants count.value (holding_of self.now) to sender.value message.0 }
    {
        self.message(sender, message).assigned == to
            && !self.is_ticketed(count, sender.value, message)
    }

    // The numbers of the held messages of a sender.
    fn numbers(&self, sender: PrinterNumber) -> Range<u32>
        ensures first { result.start ≡ ((holding_of self.now).messages sender.value).passed + 1 }
        ensures end { result.end ≡ ((holding_of self.now).messages sender.value).passed + 1 + ((holding_of self.now).messages sender.value).count }
    {
        let row = &self.messages[sender.index()];
        let first = row.passed + 1;
        first..first + row.count
    }

    // The lowest message of a sender that wants a ticket of this sequencer.
    fn wanted_of(
        &self,
        count: PrinterCount,
        to: (u32, RoleNumber),
        sender: PrinterNumber,
    ) -> Option<(PrinterNumber, MessageNumber)>
        ensures answer { option_map (λ m. (m.0.value, m.1)) result ≡ wanted_of count.value (holding_of self.now) to sender.value }
        ensures there { IfSome result (λ m. 1 ≤ m.1.0) }
    {
        self.numbers(sender)
            .find(|number| self.wants(count, to, sender, MessageNumber(*number)))
            .map(|number| (sender, MessageNumber(number)))
    }

    // The same of the sender at a place in the circle of all senders.
    fn wanted_at(
        &self,
        count: PrinterCount,
        to: (u32, RoleNumber),
        place: u32,
    ) -> Option<(PrinterNumber, MessageNumber)>
        requires { 0 < count.value }
        ensures answer { option_map (λ m. (m.0.value, m.1)) result ≡ wanted_of count.value (holding_of self.now) to (place % count.value) }
        ensures there { IfSome result (λ m. 1 ≤ m.1.0) }
    {
        let sender = PrinterNumber {
            value: place % count.value,
        };
        self.wanted_of(count, to, sender)
    }

    // The first message that wants a ticket of this sequencer. The senders are tried in a circle that begins at `from`.
    pub fn wanted(
        &self,
        count: PrinterCount,
        to: (u32, RoleNumber),
        from: u32,
    ) -> Option<(PrinterNumber, MessageNumber)>
        requires from_bound { from < 9 }
        ensures answer { option_map (λ m. (m.0.value, m.1)) result ≡ wanted count.value (holding_of self.now) to from }
        ensures there { IfSome result (λ m. 1 ≤ m.1.0) }
    {
        (from..from + count.value).find_map(|place| self.wanted_at(count, to, place))
    }

    fn is_ticketed_down(
        &self,
        count: PrinterCount,
        sender: PrinterNumber,
        message: MessageNumber,
    ) -> bool
        ensures { result ≡ is_ticketed_down count.value (holding_of self.now) sender.value message.0 }
    {
        self.message(sender, message).kind == RecordKind::Down
            && self.is_ticketed(count, sender.value, message)
    }

    // Whether a held message of a sender is a down that has a ticket.
    pub fn is_down_ticketed(&self, count: PrinterCount, sender: PrinterNumber) -> bool
        ensures { result ≡ down_ticketed count.value (holding_of self.now) sender.value }
    {
        self.numbers(sender).any(|number| self.is_ticketed_down(
            count,
            sender,
            MessageNumber(number),
        ))
    }
}
