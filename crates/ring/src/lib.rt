// A transport of rings: the frames of each ordered pair of printers lie in a circle of cells of its own.
#![tactic(auto)]

mod carrying;
mod circle;
mod making;
mod places;
mod posting;
mod ring;
mod taking;

pub use ring::RingTransport;
