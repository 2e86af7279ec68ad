// What a record changes in a printer's part. Number and configuration are parameters: a method of the table would owe the
// table's ghost fields midway, where they do not hold yet.
ghost use Rattle.std.specs.Prelude.{◌≡◌, length};
ghost use Rattle.roles.specs.Configurations.{conf_of};
ghost use Rattle.roles.specs.Nearest.{delay_in};
ghost use Rattle.table.specs.Passing.{duty_after, unserved, ruled};

use crate::duty::{Duty, PrinterState};
use roles::{Configuration, Delays, RecordKind};

impl Duty {
    // The effect of a record of `owner` on the part of printer `me`, by the configuration after it.
    pub(crate) fn record(
        &mut self,
        me: u32,
        configuration: &Configuration,
        kind: RecordKind,
        owner: u32,
    )
        ensures { self.new ≡ duty_after me (conf_of configuration.now) kind owner self.old }
    {
        match (self.state, kind, owner == me) {
            (PrinterState::Passive | PrinterState::Rising, RecordKind::Up, true) => {
                self.state = PrinterState::Active;
                self.sequencer = configuration.pair_of(me);
            }
            (_, RecordKind::Down, true) => {
                if configuration.is_active(me) {
                    self.state = PrinterState::Active;
                } else {
                    self.state = PrinterState::Passive;
                }
            }
            _ => {}
        }
    }

    // Whether printer `me` is passive and its sequencer is not active any more under its role number.
    fn is_unserved(&self, me: u32, configuration: &Configuration) -> bool
        ensures { result ≡ unserved me (conf_of configuration.now) self.now }
    {
        !configuration.is_active(me) && !configuration.serves(self.sequencer)
    }

    // The rule after each record: who is unserved takes the nearest active printer, and owes a reassignment as long as
    // it has undelivered messages.
    pub(crate) fn rule(
        &mut self,
        me: u32,
        configuration: &Configuration,
        delays: &Delays,
        undelivered: u32,
    )
        ensures { self.new ≡ ruled (length delays.now.row.now) (delay_in delays.now.row.now) me (conf_of configuration.now) undelivered self.old }
    {
        let lost = self.is_unserved(me, configuration);
        if lost {
            if let Some(nearest) = configuration.nearest(delays) {
                self.sequencer = configuration.pair_of(nearest.value);
            }
        }
        self.owes = undelivered > 0 && (self.owes || lost);
    }
}
