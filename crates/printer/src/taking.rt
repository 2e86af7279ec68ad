// Taking a frame.
ghost use Rattle.std.specs.Prelude.{◌≡◌, ◌<◌, ◌≤◌, false, length, is_ok, if◌then◌else◌, ◌≢◌};
ghost use Rattle.transport.specs.Nets.{oldest, after_take};
ghost use Rattle.roles.specs.Nearest.{delay_in};
ghost use Rattle.table.specs.Printers.{printer_of, hearing_of};
ghost use Rattle.backlog.specs.Holdings.{holding_of, hold_message};
ghost use Rattle.printer.specs.Laws.{Lawful};
ghost use Rattle.printer.specs.Taking.{hear, lacks_room, holding_after, shelf_after, received, take_answer, taken};
ghost use Rattle.printer.specs.Views.{number_of, kept_by, desk_of};

use crate::printer::Printer;
use crate::refusing::refused;
use crate::shelving::lay;
use backlog::{Backlog, Held, Stub};
use body::Body;
use frame::{Content, Frame, MessageNumber, PrinterNumber, RoleNumber, TicketNumber};
use refusals::{PrinterFault, PrinterRefusal};
use roles::{Delays, RecordKind};
use table::{Clocks, Heed, PrinterTable, Record};
use transport::{Transport, TransportFault, TransportRefusal};

// Whether there is no room for what a frame of this sender brings.
fn lacks_room<B: Body>(backlog: &Backlog, from: PrinterNumber, frame: Frame<B>) -> bool
    ensures { result ≡ lacks_room from.value (holding_of backlog.now) frame }
{
    match frame.payload.content {
        Content::Data { .. } | Content::Up { .. } | Content::Down { .. } => {
            backlog.messages_held(from) >= 8
        }
        Content::Ticket { .. } => backlog.tickets[from.index()].count >= 16,
        Content::Reassign { .. } | Content::Clock => false,
    }
}

// The clocks after a frame with this clock.
fn hear_clock(clocks: &mut Clocks, from: PrinterNumber, clock: TicketNumber)
    ensures { hearing_of clocks.new ≡ hear from.value clock.0 (hearing_of clocks.old) }
{
    clocks.own = clocks.own.max(clock);
    clocks.heard[from.index()] = clock;
}

// Holds what a frame brings. Three arms hold a message, since each names its kind.
fn hold_frame<B: Body>(backlog: &mut Backlog, from: PrinterNumber, frame: Frame<B>)
    requires room { lacks_room from.value (holding_of backlog.old) frame ≡ false }
    ensures { holding_of backlog.new ≡ holding_after from.value frame (holding_of backlog.old) }
{
    match frame.payload.content {
        Content::Data {
            number,
            sequencer,
            role,
            ..
        } => hold(backlog, from, number, RecordKind::Data, (sequencer, role)),
        Content::Up {
            number,
            sequencer,
            role,
        } => hold(backlog, from, number, RecordKind::Up, (sequencer, role)),
        Content::Down {
            number,
            sequencer,
            role,
        } => hold(backlog, from, number, RecordKind::Down, (sequencer, role)),
        Content::Ticket { of, number } => {
            let stub = Stub {
                number: frame.payload.clock,
                sender: of,
                message: number,
            };
            backlog.hold_ticket(from, stub);
        }
        Content::Reassign {
            last,
            sent,
            sequencer,
            role,
        } => backlog.reassign(from, last, sent, (sequencer, role)),
        Content::Clock => {}
    }
}

fn hold(
    backlog: &mut Backlog,
    from: PrinterNumber,
    number: MessageNumber,
    kind: RecordKind,
    assigned: (u32, RoleNumber),
)
    requires room { ((holding_of backlog.old).messages from.value).count < 8 }
    ensures { holding_of backlog.new ≡ hold_message (holding_of backlog.old) from.value number.0 (record { kind = kind; assigned = assigned }) }
{
    backlog.hold_message(from, number, Held { kind, assigned });
}

// Lays the body of a frame, if it has one, on the shelf.
fn lay_body<B: Body>(shelf: &mut [B::Row], from: PrinterNumber, frame: Frame<B>)
    ensures { shelf.new ≡ shelf_after B.Body.row from.value frame shelf.old }
{
    if let Content::Data { number, body, .. } = frame.payload.content {
        lay(shelf, from, number, body.to_row());
    }
}

// Hears the frame's clock, and holds what it brings.
fn receive<B: Body>(table: &mut PrinterTable, from: PrinterNumber, frame: Frame<B>)
    requires from_other { from.value ≢ table.old.me.value }
    requires room { lacks_room from.value (printer_of table.old).holding frame ≡ false }
    ensures table { printer_of table.new ≡ received from.value frame (printer_of table.old) }
    ensures me { table.new.me ≡ table.old.me }
{
    hear_clock(&mut table.clocks, from, frame.payload.clock);
    hold_frame(&mut table.backlog, from, frame);
}

impl Printer {
    // Takes the oldest frame from a sender, and passes on what can be passed on then. The list is a plain slice of its
    // hall's store, so its bound is asked of each step that writes there. There is a delay for each printer of the hall.
    pub fn take<T: Transport>(
        &mut self,
        from: PrinterNumber,
        delays: &Delays,
        list: &mut [Record<<T::Body as Body>::Row>],
        shelf: &mut [<T::Body as Body>::Row],
        transport: &mut T,
    ) -> Result<(), PrinterFault>
        requires from_other { from.value ≢ number_of self.old }
        requires list_len_bound { length list.old ≤ 65536 }
        ensures answer { result ≡ take_answer (number_of self.old) from.value (kept_by self.old) (length list.old) (T.meaning transport.old) }
        ensures after { desk_of self.new list.new shelf.new ≡ (if is_ok result then taken T.Body.Body.row (length delays.now.row.now) (delay_in delays.now.row.now) (number_of self.old) from.value (desk_of self.old list.old shelf.old) (oldest (T.meaning transport.old) from.value (number_of self.old)) else desk_of self.old list.old shelf.old) }
        ensures number { number_of self.new ≡ number_of self.old }
        ensures net { T.meaning transport.new ≡ (if is_ok result then after_take (T.meaning transport.old) from.value (number_of self.old) else T.meaning transport.old) }
        ensures lawful { Lawful (length delays.now.row.now) (desk_of self.old list.old shelf.old) (desk_of self.new list.new shelf.new) }
    {
        if self.table.length as usize >= list.len() {
            return Err(refused(&self.table, PrinterRefusal::ListFull));
        }
        let me = self.table.me.value;
        let frame = transport.look(from.value, me).ok_or(TransportFault {
            refusal: TransportRefusal::NothingWaits,
            printer: me,
        })?;
        if lacks_room(&self.table.backlog, from, frame) {
            return Err(refused(&self.table, PrinterRefusal::NoRoom));
        }
        transport.take(from.value, me);
        receive(&mut self.table, from, frame);
        lay_body(shelf, from, frame);
        self.table.pass_on(Heed::Clocks, delays, list, shelf);
        Ok(())
    }
}
