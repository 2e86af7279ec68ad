// Transmitting the first frame due.
ghost use Rattle.std.specs.Prelude.{◌≡◌, ◌+◌, ◌<◌, ◌≤◌, true, length, is_ok, if◌then◌else◌};
ghost use Rattle.roles.specs.Nearest.{delay_in};
ghost use Rattle.transport.specs.Nets.{after_post};
ghost use Rattle.table.specs.Dues.{due, FitsTicket};
ghost use Rattle.table.specs.Printers.{printer_of};
ghost use Rattle.printer.specs.Laws.{Lawful};
ghost use Rattle.printer.specs.Posts.{posting_answer, posted_at};
ghost use Rattle.printer.specs.Transmitting.{reassign_content, repaid, issued, due_frame, ticket_answer, transmit_answer, transmitted, after_transmit};
ghost use Rattle.printer.specs.Views.{number_of, kept_by, desk_of};
ghost use Rattle.table.specs.declared.Due.TheVariants.{Reassignment, Ticket, Clock};

use crate::posting::post;
use crate::printer::Printer;
use crate::refusing::refused;
use backlog::Stub;
use body::Body;
use frame::{Content, MessageNumber, TicketNumber};
use refusals::{PrinterFault, PrinterRefusal};
use roles::Delays;
use table::{Due, Heed, PrinterTable, Record};
use transport::Transport;

// The own messages that are not delivered get the present sequencer, and nothing is owed.
fn settle_debt(table: &mut PrinterTable)
    ensures table { printer_of table.new ≡ repaid table.old.me.value (printer_of table.old) }
    ensures me { table.new.me ≡ table.old.me }
{
    table.backlog.reassign_all(table.me, table.duty.sequencer);
    table.duty.owes = false;
}

// The reassignment of all own messages that are not delivered.
fn reassignment<B: Copy>(table: &PrinterTable) -> Content<B>
    ensures { result ≡ reassign_content table.now.me.value (printer_of table.now) }
{
    let row = &table.backlog.messages[table.me.index()];
    let (sequencer, role) = table.duty.sequencer;
    Content::Reassign {
        last: MessageNumber(row.passed),
        sent: MessageNumber(row.passed + row.count),
        sequencer,
        role,
    }
}

// Posts the reassignment that is owed.
fn repay<T: Transport>(table: &mut PrinterTable, transport: &mut T) -> Result<(), PrinterFault>
    requires { table.old.duty.owes ≡ true }
    ensures answer { result ≡ posting_answer (T.meaning transport.old) table.old.me.value }
    ensures table { printer_of table.new ≡ (if is_ok result then repaid table.old.me.value (posted_at table.old.clocks.own.0 (printer_of table.old)) else printer_of table.old) }
    ensures me { table.new.me ≡ table.old.me }
    ensures net { T.meaning transport.new ≡ (if is_ok result then after_post (T.meaning transport.old) (due_frame table.old.me.value (printer_of table.old) Reassignment) else T.meaning transport.old) }
{
    post(table, table.clocks.own, reassignment(table), transport)?;
    settle_debt(table);
    Ok(())
}

// Holds a ticket of the printer's own, with the number of its clock.
fn hold_ticket(table: &mut PrinterTable, sender: u32, message: MessageNumber)
    requires sender_bound { sender < 8 }
    requires room { ((printer_of table.old).holding.tickets table.old.me.value).count < 16 }
    ensures table { printer_of table.new ≡ issued table.old.me.value sender message (printer_of table.old) }
    ensures me { table.new.me ≡ table.old.me }
{
    let number = table.clocks.own;
    table.backlog.hold_ticket(
        table.me,
        Stub {
            number,
            sender,
            message,
        },
    );
    table.duty.turn = sender + 1;
}

// Posts a ticket for a message, under a clock that is one higher, if there is one.
fn issue<T: Transport>(
    table: &mut PrinterTable,
    sender: u32,
    message: MessageNumber,
    transport: &mut T,
) -> Result<(), PrinterFault>
    requires { FitsTicket table.old.me.value (printer_of table.old) sender message }
    ensures answer { result ≡ ticket_answer table.old.me.value (printer_of table.old) (T.meaning transport.old) }
    ensures table { printer_of table.new ≡ (if is_ok result then issued table.old.me.value sender message (posted_at (table.old.clocks.own.0 + 1) (printer_of table.old)) else printer_of table.old) }
    ensures me { table.new.me ≡ table.old.me }
    ensures net { T.meaning transport.new ≡ (if is_ok result then after_post (T.meaning transport.old) (due_frame table.old.me.value (printer_of table.old) (Ticket sender message)) else T.meaning transport.old) }
{
    let clock = table
        .clocks
        .own
        .0
        .checked_add(1)
        .ok_or(refused(table, PrinterRefusal::ClockSpent))?;
    let content = Content::Ticket {
        of: sender,
        number: message,
    };
    post(table, TicketNumber(clock), content, transport)?;
    hold_ticket(table, sender, message);
    Ok(())
}

// Posts the printer's clock.
fn tell_clock<T: Transport>(table: &mut PrinterTable, transport: &mut T) -> Result<(), PrinterFault>
    ensures answer { result ≡ posting_answer (T.meaning transport.old) table.old.me.value }
    ensures table { printer_of table.new ≡ (if is_ok result then posted_at table.old.clocks.own.0 (printer_of table.old) else printer_of table.old) }
    ensures me { table.new.me ≡ table.old.me }
    ensures net { T.meaning transport.new ≡ (if is_ok result then after_post (T.meaning transport.old) (due_frame table.old.me.value (printer_of table.old) Clock) else T.meaning transport.old) }
{
    post(table, table.clocks.own, Content::Clock, transport)
}

impl Printer {
    // Posts the first frame that is due. There is a delay for each printer of the hall; the list is a plain slice, so its
    // bound is asked.
    pub fn transmit<T: Transport>(
        &mut self,
        delays: &Delays,
        list: &mut [Record<<T::Body as Body>::Row>],
        shelf: &[<T::Body as Body>::Row],
        transport: &mut T,
    ) -> Result<(), PrinterFault>
        requires { length list.old ≤ 65536 }
        ensures answer { result ≡ transmit_answer (length delays.now.row.now) (number_of self.old) (kept_by self.old) (length list.old) (T.meaning transport.old) }
        ensures after { desk_of self.new list.new shelf.now ≡ (if is_ok result then transmitted (length delays.now.row.now) (delay_in delays.now.row.now) (number_of self.old) (desk_of self.old list.old shelf.now) (due (length delays.now.row.now) (number_of self.old) (kept_by self.old)) else desk_of self.old list.old shelf.now) }
        ensures number { number_of self.new ≡ number_of self.old }
        ensures net { T.meaning transport.new ≡ (if is_ok result then after_transmit (number_of self.old) (kept_by self.old) (T.meaning transport.old) (due (length delays.now.row.now) (number_of self.old) (kept_by self.old)) else T.meaning transport.old) }
        ensures lawful { Lawful (length delays.now.row.now) (desk_of self.old list.old shelf.now) (desk_of self.new list.new shelf.now) }
    {
        if self.table.length as usize >= list.len() {
            return Err(refused(&self.table, PrinterRefusal::ListFull));
        }
        match self.table.due(delays.count()) {
            None => Err(refused(&self.table, PrinterRefusal::NothingDue)),
            Some(Due::Reassignment) => repay(&mut self.table, transport),
            Some(Due::Ticket { sender, message }) => {
                issue(&mut self.table, sender, message, transport)?;
                self.table.pass_on(Heed::Clocks, delays, list, shelf);
                Ok(())
            }
            Some(Due::Clock) => tell_clock(&mut self.table, transport),
        }
    }
}
