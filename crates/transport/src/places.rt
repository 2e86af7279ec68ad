// Places along a circle.
ghost use Rattle.std.specs.Prelude.{◌≡◌, ◌<◌, ◌≤◌};
ghost use Rattle.transport.specs.Circles.{around};

// The place k steps after start, in a circle of limit places. Numbers beyond the circle have an answer too.
pub fn place_after(limit: usize, start: usize, k: usize) -> usize
    ensures value { result ≡ around limit start k }
    ensures within { start < limit → k ≤ limit → result < limit }
{
    let room = limit.saturating_sub(start);
    if k < room { start + k } else { k - room }
}
