// The departure of another printer.
ghost use Rattle.std.specs.Prelude.{◌≡◌, ◌+◌, ◌<◌, ◌≤◌, length};
ghost use Rattle.roles.specs.Nearest.{delay_in};
ghost use Rattle.backlog.specs.Tickets.{tickets_held};
ghost use Rattle.table.specs.Departures.{left_by};
ghost use Rattle.table.specs.Given.{Given};
ghost use Rattle.printer.specs.Views.{number_of, kept_by, desk_of};

use crate::printer::Printer;
use frame::PrinterNumber;
use roles::Delays;
use table::Record;

impl Printer {
    // Another printer leaves: all held tickets are passed on without regard to clocks, and a gone record is written. The
    // list has room for that, and is a plain slice, so its bound is asked; there is a delay for each printer of the hall.
    pub fn leave<R: Copy>(
        &mut self,
        leaver: PrinterNumber,
        delays: &Delays,
        list: &mut [Record<R>],
        shelf: &[R],
    )
        requires list_len_bound { length list.old ≤ 65536 }
        requires room { (kept_by self.old).length + tickets_held (length delays.now.row.now) (kept_by self.old).holding < length list.old }
        ensures after { desk_of self.new list.new shelf.now ≡ left_by (length delays.now.row.now) (delay_in delays.now.row.now) (number_of self.old) (desk_of self.old list.old shelf.now) leaver.value }
        ensures number { number_of self.new ≡ number_of self.old }
        ensures given { Given (length delays.now.row.now) (desk_of self.old list.old shelf.now) → Given (length delays.now.row.now) (desk_of self.new list.new shelf.now) }
    {
        self.table.leave(delays, leaver, list, shelf);
    }
}
