// All that a printer keeps.
ghost use Rattle.std.specs.Prelude.{◌≡◌, ℕ, ◌≤◌, true};
ghost use Rattle.backlog.specs.Holdings.{holding_of};
ghost use Rattle.roles.specs.Configurations.{conf_of};

use crate::duty::Duty;
use backlog::Backlog;
use frame::{PrinterNumber, TicketNumber};
use roles::Configuration;

#[derive(Clone, Copy)]
pub struct Clocks {
    // the highest ticket number that the printer knows of
    pub own: TicketNumber,
    // the clock of the frame that it posted last
    pub posted: TicketNumber,
    // the clock last heard from each printer, with a place for each number that a printer can have, in fixed memory
    pub heard: [TicketNumber; 8],
}

// What printer `me` keeps, apart from its list and its shelf, which lie in the caller's stores. `length` is that of its
// list. Every message, ticket and role number that it counts goes with a record of that list, so none of them ever comes
// near the end of its 32 bits. The definitions take `me` beside the printer, as those of a hall do that count its
// printers by number; so it is no part of what a table means, and each step says that it stays.
#[derive(Clone, Copy)]
pub struct PrinterTable {
    pub me: PrinterNumber,
    pub clocks: Clocks,
    pub duty: Duty,
    pub configuration: Configuration,
    pub backlog: Backlog,
    pub length: u32,
    ghost length_ok: { length ≤ 65536 },
    ghost sequencer_ok: { duty.sequencer.0 ≤ 7 },
    ghost turn_ok: { duty.turn ≤ 8 },
    ghost roles_ok: { ((a : ℕ) → (conf_of configuration a).role.0 ≤ length) },
    ghost messages_ok: { ((x : ℕ) → ((holding_of backlog).messages x).passed ≤ length) },
    ghost tickets_ok: { ((b : ℕ) → ((holding_of backlog).tickets b).passed ≤ length) },
    ghost own_ok: { ((holding_of backlog).messages me.value).count ≤ 7 },
    ghost owes_ok: { (duty.owes ≡ true → 1 ≤ ((holding_of backlog).messages me.value).count) },
}
