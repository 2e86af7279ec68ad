// What a message may carry: kinds of bodies, each a fixed count of words, and the faults of the wire.
#![tactic(auto)]

mod change;
mod change_body;
mod claim;
mod claim_body;
mod faults;
mod kind;

pub use change::{ChangeKind, ChangeRow, TemplateChange};
pub use claim::{ClaimRow, NumberClaim};
pub use faults::{UNFIT, WireFault, WireRefusal};
pub use kind::Body;
