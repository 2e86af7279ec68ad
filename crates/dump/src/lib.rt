// Lines of a dump of wire blocks. A line is a body kind, `change` or `claim`, and then nothing, or at least one space and
// the block in hex, in words of eight digits that may stand apart. Blanks at the two ends of the line do not count.
#![tactic(auto)]

mod digit;
mod faults;
mod hex;
mod line;
mod meaning;
mod trim;

pub use faults::LineFault;
pub use line::{BodyKind, Dump, read_line};
pub use meaning::meaning_stands;
