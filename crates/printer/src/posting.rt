// Posting a frame.
ghost use Rattle.std.specs.Prelude.{◌≡◌, true, is_ok, if◌then◌else◌};
ghost use Rattle.frame.specs.Ranges.{content_ok};
ghost use Rattle.transport.specs.Nets.{after_post};
ghost use Rattle.table.specs.Printers.{printer_of};
ghost use Rattle.printer.specs.Posts.{frame_from, posting_answer, posted_at};

use frame::{Content, Payload, TicketNumber};
use refusals::PrinterFault;
use table::PrinterTable;
use transport::Transport;

// Posts a content under a clock, which is the printer's from then on.
pub(crate) fn post<T: Transport>(
    table: &mut PrinterTable,
    clock: TicketNumber,
    content: Content<T::Body>,
    transport: &mut T,
) -> Result<(), PrinterFault>
    requires { content_ok clock.0 content ≡ true }
    ensures answer { result ≡ posting_answer (T.meaning transport.old) table.old.me.value }
    ensures table { printer_of table.new ≡ (if is_ok result then posted_at clock.0 (printer_of table.old) else printer_of table.old) }
    ensures me { table.new.me ≡ table.old.me }
    ensures net { T.meaning transport.new ≡ (if is_ok result then after_post (T.meaning transport.old) (frame_from table.old.me.value clock content) else T.meaning transport.old) }
{
    transport.post(table.me, Payload { clock, content })?;
    table.clocks.own = clock;
    table.clocks.posted = clock;
    Ok(())
}
