// The refusals of a printer, and the fault that names one.
ghost use Rattle.std.specs.Prelude.{◌≡◌};
ghost use Rattle.refusals.specs.Faults.{refusal_number, fault_number, fault_layer, fault_printer, carried_up};

use transport::{Layer, TransportFault};

// Why a printer does not do its step.
#[derive(Clone, Copy, PartialEq, Eq, Debug)]
pub enum PrinterRefusal {
    // it is rising or falling
    Switching = 7,
    // it is active already, or passive already
    RoleHeld = 8,
    // it owes a reassignment
    ReassignmentOwed = 9,
    // seven of its own messages are undelivered
    SevenUndelivered = 10,
    // one of its own messages is undelivered
    Undelivered = 11,
    // the printer named is not active
    NotActive = 12,
    // its list is full
    ListFull = 13,
    // nothing is due
    NothingDue = 14,
    // a ticket is due, and the clock is at its end
    ClockSpent = 15,
    // it holds as many messages of that sender, or tickets of that issuer, as it may
    NoRoom = 18,
}

impl PrinterRefusal {
    // The refusal's number in the table of refusals: asked by name, where `u8::from` would not say which number it is.
    pub fn number(self) -> u8
        ensures { result ≡ refusal_number self }
    {
        self as u8
    }
}

// What a printer's step was refused for, by itself or by the transport.
#[derive(Clone, Copy, PartialEq, Eq, Debug)]
pub enum PrinterFault {
    Transport(TransportFault),
    Printer {
        refusal: PrinterRefusal,
        printer: u32,
    },
}

impl From<TransportFault> for PrinterFault {
    ghost from_gives = { λ e r. r ≡ carried_up e };

    fn from(value: TransportFault) -> PrinterFault {
        PrinterFault::Transport(value)
    }
}

impl PrinterFault {
    // The number in the table of refusals: a question beside the layer and the printer, and no conversion.
    pub fn number(self) -> u8
        ensures { result ≡ fault_number self }
    {
        match self {
            PrinterFault::Transport(fault) => fault.refusal.number(),
            PrinterFault::Printer { refusal, .. } => refusal.number(),
        }
    }

    // The layer that refused: a question like the others.
    pub fn layer(self) -> Layer
        ensures { result ≡ fault_layer self }
    {
        match self {
            PrinterFault::Transport(fault) => fault.refusal.layer(),
            PrinterFault::Printer { .. } => Layer::Printer,
        }
    }

    // The printer that it is about.
    pub fn printer(self) -> u32
        ensures { result ≡ fault_printer self }
    {
        match self {
            PrinterFault::Transport(fault) => fault.printer,
            PrinterFault::Printer { printer, .. } => printer,
        }
    }
}
