// A transport that stores each frame once, in the log of its sender, with a cursor for each receiver.
#![tactic(auto)]

mod carrying;
mod log;
mod making;
mod places;
mod posting;
mod taking;

pub use log::LogTransport;
