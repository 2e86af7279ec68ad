// The departure of another printer.
ghost use Rattle.std.specs.Prelude.{◌≡◌, ◌+◌, ◌<◌, ◌≤◌, not, ◌&&◌, length};
ghost use Rattle.backlog.specs.Holdings.{holding_of};
ghost use Rattle.backlog.specs.Tickets.{tickets_held};
ghost use Rattle.roles.specs.Configurations.{conf_of, is_active, own_pair};
ghost use Rattle.roles.specs.Nearest.{delay_in};
ghost use Rattle.table.specs.Departures.{promotion, duty_promoted, holding_promoted, bereft, left_by};
ghost use Rattle.table.specs.Desks.{desk};
ghost use Rattle.table.specs.Given.{Given};
ghost use Rattle.table.specs.Grown.{Grown};
ghost use Rattle.table.specs.Printers.{printer_of};

use crate::duty::{Duty, PrinterState};
use crate::passing::Heed;
use crate::records::{Record, write_record};
use crate::table::PrinterTable;
use backlog::Backlog;
use frame::{MessageNumber, PrinterNumber, RoleNumber};
use roles::{Configuration, Delays, RecordKind};

impl Duty {
    // Who is promoted is active and its own sequencer, and owes nothing.
    fn promote(&mut self, promotion: Option<(u32, RoleNumber)>)
        ensures { self.new ≡ duty_promoted promotion self.old }
    {
        if let Some(own) = promotion {
            self.state = PrinterState::Active;
            self.sequencer = own;
            self.owes = false;
        }
    }
}

// A printer that has become active, with its new role number. Asked with its parts, like the rule after each record.
fn promotion(me: u32, was_active: bool, configuration: &Configuration) -> Option<(u32, RoleNumber)>
    ensures { result ≡ promotion (is_active (conf_of configuration.now) me && not was_active) (own_pair (conf_of configuration.now) me) }
{
    if configuration.is_active(me) && !was_active {
        Some(configuration.pair_of(me))
    } else {
        None
    }
}

// Who is promoted takes over its own messages.
fn take_over(backlog: &mut Backlog, me: PrinterNumber, promotion: Option<(u32, RoleNumber)>)
    ensures { holding_of backlog.new ≡ holding_promoted promotion me.value (holding_of backlog.old) }
{
    if let Some(own) = promotion {
        backlog.reassign_all(me, own);
    }
}

impl PrinterTable {
    // The effect of a gone record.
    fn depart(&mut self, delays: &Delays, leaver: PrinterNumber)
        requires { self.old.length < 65536 }
        ensures table { printer_of self.new ≡ bereft (length delays.now.row.now) (delay_in delays.now.row.now) self.old.me.value (printer_of self.old) leaver.value }
        ensures me { self.new.me ≡ self.old.me }
    {
        let me = self.me.value;
        let was_active = self.configuration.is_active(me);
        self.configuration
            .record(delays.count(), RecordKind::Gone, leaver);
        let promotion = promotion(me, was_active, &self.configuration);
        self.backlog.drop_messages(leaver);
        take_over(&mut self.backlog, self.me, promotion);
        self.duty.promote(promotion);
        let undelivered = self.backlog.messages_held(self.me);
        self.duty.rule(me, &self.configuration, delays, undelivered);
        self.length += 1;
    }

    // Another printer leaves: all held tickets are passed on without regard to clocks, and a gone record is written. The
    // list has room for that; it is a plain slice, so its bound is asked.
    pub fn leave<R: Copy>(
        &mut self,
        delays: &Delays,
        leaver: PrinterNumber,
        list: &mut [Record<R>],
        shelf: &[R],
    )
        requires list_len_bound { length list.old ≤ 65536 }
        requires room { self.old.length + tickets_held (length delays.now.row.now) (printer_of self.old).holding < length list.old }
        ensures after { desk (printer_of self.new) list.new shelf.now ≡ left_by (length delays.now.row.now) (delay_in delays.now.row.now) self.old.me.value (desk (printer_of self.old) list.old shelf.now) leaver.value }
        ensures me { self.new.me ≡ self.old.me }
        ensures grows { Grown (desk (printer_of self.old) list.old shelf.now) (desk (printer_of self.new) list.new shelf.now) }
        ensures given { Given (length delays.now.row.now) (desk (printer_of self.old) list.old shelf.now) → Given (length delays.now.row.now) (desk (printer_of self.new) list.new shelf.now) }
    {
        self.pass_on(Heed::Nothing, delays, list, shelf);
        write_record(
            list,
            self.length as usize,
            RecordKind::Gone,
            leaver.value,
            MessageNumber(0),
            shelf,
        );
        self.depart(delays, leaver);
    }
}
