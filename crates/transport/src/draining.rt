// Taking all that waits, by the meaning of a transport alone.
ghost use Rattle.std.specs.Prelude.{◌≡◌, min, length, is_some};
ghost use Rattle.transport.specs.Nets.{oldest, queue, after_take, after_takes};

use crate::meaning::Transport;

// Takes the oldest frame of a pair, and answers whether there was one.
fn take_one<T: Transport>(t: &mut T, sender: u32, receiver: u32) -> bool
    ensures answer { result ≡ is_some (oldest (T.meaning t.old) sender receiver) }
    ensures after { T.meaning t.new ≡ after_take (T.meaning t.old) sender receiver }
{
    let found = t.look(sender, receiver).is_some();
    t.take(sender, receiver);
    found
}

// Takes the frames of a pair, at most `most` of them, and answers how many it took.
pub fn drain<T: Transport>(t: &mut T, sender: u32, receiver: u32, most: usize) -> usize
    ensures answer { result ≡ min most (length (queue (T.meaning t.old) sender receiver)) }
    ensures after { T.meaning t.new ≡ after_takes (T.meaning t.old) sender receiver result }
{
    // counted, since the answer is how many were taken
    for count in 0..most {
        if !take_one(t, sender, receiver) {
            return count;
        }
    }
    most
}
