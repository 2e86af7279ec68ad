// What a transport between printers means, and code that knows a transport by that alone.
#![tactic(auto)]

mod cells;
mod draining;
mod faults;
mod judging;
mod limits;
mod meaning;
mod members;
mod pairs;
mod places;
mod queues;
mod series;
mod storing;

pub use cells::CellTransport;
pub use draining::drain;
pub use faults::{Layer, TransportFault, TransportRefusal};
pub use judging::judge_post;
pub use limits::fair_limit;
pub use meaning::Transport;
pub use members::Members;
pub use pairs::PairTable;
pub use places::place_after;
pub use queues::Queues;
pub use series::sure_of_posts;
pub use storing::stored_frame;

// What a table over pairs takes, so that its user needs only this crate.
pub use frame::PrinterNumber;
