// Tables of what is kept for each ordered pair of printers.
ghost use Rattle.std.specs.Prelude.{◌≡◌, ◌+◌, ◌*◌, length};

use frame::PrinterNumber;

// A value for each sender and receiver, of up to eight printers, in fixed memory.
#[derive(Drop)]
pub struct PairTable<T> {
    places: [T; 64],
    ghost full: { length places ≡ 64 },
}

// Where a table has a pair.
fn place(sender: PrinterNumber, receiver: PrinterNumber) -> usize
    ensures { result ≡ sender.value * 8 + receiver.value }
{
    sender.index() * 8 + receiver.index()
}

impl<T: Copy> PairTable<T> {
    ghost use Rattle.std.specs.Prelude.{◌≡◌, ℕ, ◌<◌, ◌==◌, ◌&&◌, cond};
    ghost use Rattle.transport.specs.Tables.{at_pair};

    // The same value for each pair.
    pub fn filled(value: T) -> PairTable<T>
        ensures { (i j : ℕ) → at_pair value result i j ≡ value }
    {
        PairTable {
            places: [value; 64],
        }
    }

    // What the table has for a pair.
    pub fn get(&self, sender: PrinterNumber, receiver: PrinterNumber) -> T
        ensures { (none : T) → result ≡ at_pair none self.now sender.value receiver.value }
    {
        let at = place(sender, receiver);
        self.places[at]
    }

    // Changes what the table has for one pair.
    pub fn set(&mut self, sender: PrinterNumber, receiver: PrinterNumber, value: T)
        ensures { (none : T) (i j : ℕ) → j < 8 → at_pair none self.new i j ≡ cond (i == sender.value && j == receiver.value) value (at_pair none self.old i j) }
    {
        self.places[place(sender, receiver)] = value;
    }
}
