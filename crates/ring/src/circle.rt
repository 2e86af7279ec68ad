// What is kept for the circle of a pair.

// Where the oldest frame lies in the circle, and how many frames it holds.
#[derive(Clone, Copy)]
pub(crate) struct Circle {
    pub(crate) start: usize,
    pub(crate) held: usize,
}

impl Circle {
    pub(crate) const EMPTY: Circle = Circle { start: 0, held: 0 };
}
