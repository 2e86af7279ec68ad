// What becomes of a row when one more is held, or the first is passed on.
ghost use Rattle.std.specs.Prelude.{◌≡◌, ◌%◌, ◌<◌};
ghost use Rattle.backlog.specs.Holdings.{row_of, nothing_in, stored, popped, dropped};

use crate::rows::Row;

impl<T: Copy, const N: usize> Row<T, N> {
    // Nothing held, and nothing passed on; `blank` stands in slots that hold nothing.
    pub(crate) fn empty(blank: T) -> Row<T, N>
        ensures { row_of blank result ≡ nothing_in blank }
    {
        Row {
            passed: 0,
            count: 0,
            slots: [blank; N],
        }
    }

    // One more is held, thing k.
    pub(crate) fn store(&mut self, k: u32, thing: T)
        requires room { self.old.count < N }
        requires size { N < 65536 }
        ensures { (d : T) → row_of d self.new ≡ stored (row_of d self.old) (k % N) thing }
    {
        self.slots[k as usize % N] = thing;
        self.count += 1;
    }

    // What lies in the slot of thing k.
    pub(crate) fn slot(&self, k: u32) -> T
        requires { 0 < N }
        ensures { (d : T) → result ≡ (row_of d self.now).slot (k % N) }
    {
        self.slots[k as usize % N]
    }

    // The first held is passed on.
    pub(crate) fn pop(&mut self)
        requires { self.old.passed < 65536 }
        ensures { (d : T) → row_of d self.new ≡ popped (row_of d self.old) }
    {
        self.passed += 1;
        self.count = self.count.saturating_sub(1);
    }

    // None is held any more.
    pub(crate) fn clear(&mut self)
        ensures { (d : T) → row_of d self.new ≡ dropped (row_of d self.old) }
    {
        self.count = 0;
    }
}
