// Passing records on.
ghost use Rattle.std.specs.Prelude.{◌≡◌, ◌<◌, ◌≤◌, length};
ghost use Rattle.roles.specs.Nearest.{delay_in};
ghost use Rattle.table.specs.Desks.{desk, pass_one, pass_all, Stuck};
ghost use Rattle.table.specs.Given.{Given};
ghost use Rattle.table.specs.Grown.{Grown};
ghost use Rattle.table.specs.Passing.{passed_on, kind_held};
ghost use Rattle.table.specs.Printers.{printer_of};

use crate::passing::Heed;
use crate::records::{Record, write_record};
use crate::table::PrinterTable;
use backlog::Ticket;
use frame::PrinterNumber;
use roles::{Delays, RecordKind};

impl PrinterTable {
    // The effect of one record: ticket and message are dropped, the configuration and the printer's own part change.
    fn deliver(&mut self, delays: &Delays, kind: RecordKind, ticket: Ticket)
        requires sender_bound { ticket.sender < 8 }
        requires issuer_bound { ticket.issuer < 8 }
        requires length_bound { self.old.length < 65536 }
        requires kind_value { kind ≡ kind_held (printer_of self.old) ticket }
        ensures table { printer_of self.new ≡ passed_on (length delays.now.row.now) (delay_in delays.now.row.now) self.old.me.value (printer_of self.old) ticket }
        ensures me { self.new.me ≡ self.old.me }
    {
        let me = self.me.value;
        let sender = PrinterNumber {
            value: ticket.sender,
        };
        self.configuration.record(delays.count(), kind, sender);
        self.duty
            .record(me, &self.configuration, kind, ticket.sender);
        let issuer = PrinterNumber {
            value: ticket.issuer,
        };
        self.backlog.pass_first(sender, issuer);
        let undelivered = self.backlog.messages_held(self.me);
        self.duty.rule(me, &self.configuration, delays, undelivered);
        self.length += 1;
    }
}

impl PrinterTable {
    // Passes the first held tickets on, one after the other, until one may not be passed on, none is left, or the list
    // is full. There is a delay for each printer of the hall. List and shelf are plain slices, a printer's own part of its
    // hall's stores, so the bound of a list is asked here.
    pub fn pass_on<R: Copy>(
        &mut self,
        heed: Heed,
        delays: &Delays,
        list: &mut [Record<R>],
        shelf: &[R],
    )
        requires list_len_bound { length list.old ≤ 65536 }
        ensures after { desk (printer_of self.new) list.new shelf.now ≡ pass_all heed (length delays.now.row.now) (delay_in delays.now.row.now) self.old.me.value (desk (printer_of self.old) list.old shelf.now) }
        ensures me { self.new.me ≡ self.old.me }
        ensures stops { Stuck heed (length delays.now.row.now) self.old.me.value (desk (printer_of self.new) list.new shelf.now) }
        ensures grows { Grown (desk (printer_of self.old) list.old shelf.now) (desk (printer_of self.new) list.new shelf.now) }
        ensures given { Given (length delays.now.row.now) (desk (printer_of self.old) list.old shelf.now) → Given (length delays.now.row.now) (desk (printer_of self.new) list.new shelf.now) }
    {
        while let Some(ticket) = self.next_to_pass(heed, delays.count(), list.len()) {
            self.pass_one(delays, ticket, list, shelf);
        }
    }

    // Passes one ticket on.
    fn pass_one<R: Copy>(
        &mut self,
        delays: &Delays,
        ticket: Ticket,
        list: &mut [Record<R>],
        shelf: &[R],
    )
        requires sender_bound { ticket.sender < 8 }
        requires issuer_bound { ticket.issuer < 8 }
        requires room { self.old.length < length list.old }
        requires list_len_bound { length list.old ≤ 65536 }
        ensures after { desk (printer_of self.new) list.new shelf.now ≡ pass_one (length delays.now.row.now) (delay_in delays.now.row.now) self.old.me.value (desk (printer_of self.old) list.old shelf.now) ticket }
        ensures me { self.new.me ≡ self.old.me }
    {
        let sender = PrinterNumber {
            value: ticket.sender,
        };
        let kind = self.backlog.message(sender, ticket.message).kind;
        write_record(
            list,
            self.length as usize,
            kind,
            ticket.sender,
            ticket.message,
            shelf,
        );
        self.deliver(delays, kind, ticket);
    }
}
