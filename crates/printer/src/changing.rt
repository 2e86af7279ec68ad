// Changing the sequencer.
ghost use Rattle.std.specs.Prelude.{◌≡◌, is_ok, if◌then◌else◌};
ghost use Rattle.table.specs.Printers.{printer_of};
ghost use Rattle.printer.specs.Making.{change_answer, sequenced_by};
ghost use Rattle.printer.specs.Views.{number_of, kept_by};

use crate::making::{has_role, is_switching};
use crate::printer::Printer;
use crate::refusing::refused;
use frame::PrinterNumber;
use refusals::{PrinterFault, PrinterRefusal};
use roles::RecordKind;
use table::PrinterTable;

// Whether this sequencer can be taken.
fn may_change(table: &PrinterTable, sequencer: PrinterNumber) -> Result<(), PrinterFault>
    ensures { result ≡ change_answer table.now.me.value (printer_of table.now) sequencer.value }
{
    if is_switching(table.duty.state) {
        return Err(refused(table, PrinterRefusal::Switching));
    }
    if has_role(RecordKind::Up, table.duty.state) {
        return Err(refused(table, PrinterRefusal::RoleHeld));
    }
    if table.duty.owes {
        return Err(refused(table, PrinterRefusal::ReassignmentOwed));
    }
    if table.backlog.messages_held(table.me) > 0 {
        return Err(refused(table, PrinterRefusal::Undelivered));
    }
    if !table.configuration.is_active(sequencer.value) {
        return Err(refused(table, PrinterRefusal::NotActive));
    }
    Ok(())
}

impl Printer {
    // Takes another printer as its sequencer.
    pub fn change(&mut self, sequencer: PrinterNumber) -> Result<(), PrinterFault>
        ensures answer { result ≡ change_answer (number_of self.old) (kept_by self.old) sequencer.value }
        ensures table { kept_by self.new ≡ (if is_ok result then sequenced_by (kept_by self.old) sequencer.value else kept_by self.old) }
        ensures number { number_of self.new ≡ number_of self.old }
    {
        may_change(&self.table, sequencer)?;
        self.table.duty.sequencer = self.table.configuration.pair_of(sequencer.value);
        Ok(())
    }
}
