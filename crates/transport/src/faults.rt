// The refusals of a transport, and the fault that names one.
ghost use Rattle.std.specs.Prelude.{◌≡◌};
ghost use Rattle.transport.specs.Faults.{refusal_number, refusal_layer};

// The layer that found a fault.
#[derive(Clone, Copy, PartialEq, Eq, Debug)]
pub enum Layer {
    Wire,
    Transport,
    Printer,
    Hall,
}

// Why a transport is not made, or a frame not posted or taken.
#[derive(Clone, Copy, PartialEq, Eq, Debug)]
pub enum TransportRefusal {
    // the number of printers is below 2 or above 8
    PrinterCount = 1,
    // the cells give the limit 0
    NoLimit = 3,
    // a pair from the sender is full, or there is no such sender
    PostRefused = 16,
    // nothing waits from that sender
    NothingWaits = 17,
}

impl TransportRefusal {
    // The refusal's number in the table of refusals: asked by name, where `u8::from` would not say which number it is.
    pub fn number(self) -> u8
        ensures { result ≡ refusal_number self }
    {
        self as u8
    }

    // The layer that the table of refusals gives it: a question, and no conversion, since a layer is no other name of it.
    pub fn layer(self) -> Layer
        ensures { result ≡ refusal_layer self }
    {
        match self {
            TransportRefusal::PrinterCount | TransportRefusal::NoLimit => Layer::Hall,
            TransportRefusal::PostRefused | TransportRefusal::NothingWaits => Layer::Transport,
        }
    }
}

// A refusal and the printer that it is about; 0 where a transport is made.
#[derive(Clone, Copy, PartialEq, Eq, Debug)]
pub struct TransportFault {
    pub refusal: TransportRefusal,
    pub printer: u32,
}
