// What generic code may know of a body.
ghost use Rattle.std.specs.Prelude.{◌≡◌, ℕ, ◌≤◌, Bool, true, List, [], length, Some, Option, slice_index};
ghost use Rattle.body.specs.Words.{in_order};

// A kind of body: a fixed count of one to eight words of 32 bits, and a plain row.
// A row has no ranges of its own, so it may lie in an array where a body may not.
pub trait Body: Sized + Copy {
    type Row: Copy;

    // how many words every body of this kind has
    ghost count: { ℕ };

    // the words that a body is written as
    ghost words: { Self → List ℕ };

    // whether a word is in range after the words before it
    ghost allows: { List ℕ → ℕ → Bool };

    // the body of some words
    ghost rebuilt: { List ℕ → Option Self };

    // the row of a body
    ghost row: { Self → Self.Row };

    // the body of a row
    ghost remade: { Self.Row → Option Self };

    // Counted by a function, since a contract cannot name a constant of a trait.
    fn word_count() -> usize
        ensures { result ≡ count };

    fn word(self, i: usize) -> u32
        ensures { result ≡ slice_index (words self) i };

    fn in_range(before: &[u32], word: u32) -> bool
        ensures { result ≡ allows before.now word };

    // Functions of this trait in place of `From` and `TryFrom`, since the laws below tie them to each other.
    fn from_words(given: &[u32]) -> Option<Self>
        ensures { result ≡ rebuilt given.now };

    fn to_row(self) -> Self::Row
        ensures { result ≡ row self };

    fn from_row(given: Self::Row) -> Option<Self>
        ensures { result ≡ remade given };

    ghost few: { (1 ≤ count) × (count ≤ 8) };

    ghost counted: { (b : Self) → length (words b) ≡ count };

    // a body's words are in range, one after the other
    ghost ranged: { (b : Self) → in_order allows [] (words b) ≡ true };

    // words that are in range, one after the other, are those of a body
    ghost written: { (ws : List ℕ) → length ws ≡ count → in_order allows [] ws ≡ true → (b : Self) × (words b ≡ ws) };

    ghost rebuilding: { (b : Self) → rebuilt (words b) ≡ Some b };

    ghost remaking: { (b : Self) → remade (row b) ≡ Some b };

    // a row that no body gives makes none
    ghost plain: { (x : Self.Row) (b : Self) → remade x ≡ Some b → row b ≡ x };
}
