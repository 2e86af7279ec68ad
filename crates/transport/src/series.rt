// Several posts one after the other.
ghost use Rattle.std.specs.Prelude.{◌≡◌, true};
ghost use Rattle.transport.specs.Series.{AcceptsSeries};

use crate::meaning::Transport;

// Whether so many posts by the sender are sure to be accepted, one after the other. A transport that knows less than it
// could may answer no where they would be.
pub fn sure_of_posts<T: Transport>(t: &mut T, sender: u32, count: usize) -> bool
    ensures sure { result ≡ true → AcceptsSeries (T.meaning t.old) sender count }
    ensures same { T.meaning t.new ≡ T.meaning t.old }
{
    count <= t.spare(sender)
}
