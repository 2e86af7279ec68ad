// How much of one printer is held.
ghost use Rattle.std.specs.Prelude.{◌≡◌};
ghost use Rattle.backlog.specs.Holdings.{holding_of};

use crate::backlog::Backlog;
use frame::PrinterNumber;

impl Backlog {
    // How many messages of a sender are held.
    pub fn messages_held(&self, sender: PrinterNumber) -> u32
        ensures { result ≡ ((holding_of self.now).messages sender.value).count }
    {
        let row = &self.messages[sender.index()];
        row.count
    }
}
