// Making messages.
ghost use Rattle.std.specs.Prelude.{◌≡◌, ◌<◌, true, is_ok, if◌then◌else◌, Ok, slice_set};
ghost use Rattle.frame.specs.Ranges.{assigned_ok, content_ok};
ghost use Rattle.transport.specs.Nets.{after_post};
ghost use Rattle.table.specs.Printers.{printer_of};
ghost use Rattle.table.specs.Records.{shelf_place};
ghost use Rattle.roles.specs.declared.RecordKind.TheVariants.{Data, Up, Down};
ghost use Rattle.printer.specs.Answers.{unless};
ghost use Rattle.printer.specs.Making.{is_switching, has_role, undelivered, next_number, make_refusal, make_answer, state_made, held_own, made, data_content, up_content, down_content};
ghost use Rattle.printer.specs.Posts.{own_frame};
ghost use Rattle.printer.specs.Views.{number_of, kept_by};

use crate::posting::post;
use crate::printer::Printer;
use crate::refusing::refused;
use crate::shelving::lay;
use backlog::Held;
use body::Body;
use frame::{Content, MessageNumber, RoleNumber};
use refusals::{PrinterFault, PrinterRefusal};
use roles::RecordKind;
use table::{PrinterState, PrinterTable};
use transport::Transport;

pub(crate) fn is_switching(state: PrinterState) -> bool
    ensures { result ≡ is_switching state }
{
    matches!(state, PrinterState::Rising | PrinterState::Falling)
}

// Whether a printer that wants to rise is active already, or one that wants to fall is passive already.
pub(crate) fn has_role(kind: RecordKind, state: PrinterState) -> bool
    ensures { result ≡ has_role kind state }
{
    matches!(
        (kind, state),
        (RecordKind::Up, PrinterState::Active) | (RecordKind::Down, PrinterState::Passive)
    )
}

// The number of the next own message, and the sequencer that it is assigned to.
fn next_message(table: &PrinterTable) -> (MessageNumber, (u32, RoleNumber))
    ensures answer { result ≡ (next_number table.now.me.value (printer_of table.now), table.now.duty.sequencer) }
    ensures in_range { assigned_ok result.0 result.1.0 result.1.1 ≡ true }
{
    let row = &table.backlog.messages[table.me.index()];
    let number = MessageNumber(row.passed + row.count + 1);
    (number, table.duty.sequencer)
}

// Whether a message of this kind can be made.
fn may_make(table: &PrinterTable, kind: RecordKind) -> Result<(), PrinterFault>
    ensures answer { result ≡ unless table.now.me.value (make_refusal kind table.now.me.value (printer_of table.now)) (Ok tt) }
    ensures few { is_ok result ≡ true → undelivered table.now.me.value (printer_of table.now) < 7 }
{
    if is_switching(table.duty.state) {
        return Err(refused(table, PrinterRefusal::Switching));
    }
    if has_role(kind, table.duty.state) {
        return Err(refused(table, PrinterRefusal::RoleHeld));
    }
    if kind != RecordKind::Down && table.duty.owes {
        return Err(refused(table, PrinterRefusal::ReassignmentOwed));
    }
    if table.backlog.messages_held(table.me) >= 7 {
        return Err(refused(table, PrinterRefusal::SevenUndelivered));
    }
    Ok(())
}

// The state of a printer that has made a message of this kind.
fn state_made(kind: RecordKind, state: PrinterState) -> PrinterState
    ensures { result ≡ state_made kind state }
{
    match kind {
        RecordKind::Data | RecordKind::Gone => state,
        RecordKind::Up => PrinterState::Rising,
        RecordKind::Down => PrinterState::Falling,
    }
}

// Holds a message of the printer's own, which it has just posted.
fn hold_own(table: &mut PrinterTable, kind: RecordKind)
    requires { undelivered table.old.me.value (printer_of table.old) < 7 }
    ensures table { printer_of table.new ≡ held_own kind table.old.me.value (printer_of table.old) }
    ensures me { table.new.me ≡ table.old.me }
{
    let (number, assigned) = next_message(table);
    table.duty.state = state_made(kind, table.duty.state);
    table
        .backlog
        .hold_message(table.me, number, Held { kind, assigned });
}

// Posts a message of the printer's own and holds it, if one of its kind can be made.
fn make<T: Transport>(
    table: &mut PrinterTable,
    kind: RecordKind,
    content: Content<T::Body>,
    transport: &mut T,
) -> Result<(), PrinterFault>
    requires { content_ok table.old.clocks.own.0 content ≡ true }
    ensures answer { result ≡ make_answer kind table.old.me.value (printer_of table.old) (T.meaning transport.old) }
    ensures table { printer_of table.new ≡ (if is_ok result then made kind table.old.me.value (printer_of table.old) else printer_of table.old) }
    ensures me { table.new.me ≡ table.old.me }
    ensures net { T.meaning transport.new ≡ (if is_ok result then after_post (T.meaning transport.old) (own_frame table.old.me.value (printer_of table.old) content) else T.meaning transport.old) }
{
    may_make(table, kind)?;
    post(table, table.clocks.own, content, transport)?;
    hold_own(table, kind);
    Ok(())
}

impl Printer {
    // Makes a message with this body and posts it.
    pub fn send<T: Transport>(
        &mut self,
        body: T::Body,
        shelf: &mut [<T::Body as Body>::Row],
        transport: &mut T,
    ) -> Result<(), PrinterFault>
        ensures answer { result ≡ make_answer Data (number_of self.old) (kept_by self.old) (T.meaning transport.old) }
        ensures table { kept_by self.new ≡ (if is_ok result then made Data (number_of self.old) (kept_by self.old) else kept_by self.old) }
        ensures number { number_of self.new ≡ number_of self.old }
        ensures shelf { shelf.new ≡ (if is_ok result then slice_set shelf.old (shelf_place (number_of self.old) (next_number (number_of self.old) (kept_by self.old)).0) (T.Body.Body.row body) else shelf.old) }
        ensures net { T.meaning transport.new ≡ (if is_ok result then after_post (T.meaning transport.old) (own_frame (number_of self.old) (kept_by self.old) (data_content (number_of self.old) (kept_by self.old) body)) else T.meaning transport.old) }
    {
        let (number, (sequencer, role)) = next_message(&self.table);
        let content = Content::Data {
            number,
            sequencer,
            role,
            body,
        };
        make(&mut self.table, RecordKind::Data, content, transport)?;
        lay(shelf, self.table.me, number, body.to_row());
        Ok(())
    }

    // Asks to become active. What this shares with `lower` is `make`; the content and the answer are each one's own.
    pub fn raise<T: Transport>(&mut self, transport: &mut T) -> Result<(), PrinterFault>
        ensures answer { result ≡ make_answer Up (number_of self.old) (kept_by self.old) (T.meaning transport.old) }
        ensures table { kept_by self.new ≡ (if is_ok result then made Up (number_of self.old) (kept_by self.old) else kept_by self.old) }
        ensures number { number_of self.new ≡ number_of self.old }
        ensures net { T.meaning transport.new ≡ (if is_ok result then after_post (T.meaning transport.old) (own_frame (number_of self.old) (kept_by self.old) (up_content (number_of self.old) (kept_by self.old))) else T.meaning transport.old) }
    {
        let (number, (sequencer, role)) = next_message(&self.table);
        let content = Content::Up {
            number,
            sequencer,
            role,
        };
        make(&mut self.table, RecordKind::Up, content, transport)
    }

    // Asks to become passive.
    pub fn lower<T: Transport>(&mut self, transport: &mut T) -> Result<(), PrinterFault>
        ensures answer { result ≡ make_answer Down (number_of self.old) (kept_by self.old) (T.meaning transport.old) }
        ensures table { kept_by self.new ≡ (if is_ok result then made Down (number_of self.old) (kept_by self.old) else kept_by self.old) }
        ensures number { number_of self.new ≡ number_of self.old }
        ensures net { T.meaning transport.new ≡ (if is_ok result then after_post (T.meaning transport.old) (own_frame (number_of self.old) (kept_by self.old) (down_content (number_of self.old) (kept_by self.old))) else T.meaning transport.old) }
    {
        let (number, (sequencer, role)) = next_message(&self.table);
        let content = Content::Down {
            number,
            sequencer,
            role,
        };
        make(&mut self.table, RecordKind::Down, content, transport)
    }
}
