// What is held of one sender and of one issuer.
ghost use Rattle.std.specs.Prelude.{◌≡◌, ◌≤◌, ⊤};

use frame::{MessageNumber, RoleNumber, TicketNumber};
use roles::RecordKind;
use std::alloc::AllocError;

// The things of one sender or of one issuer, in their order: the first `passed` of them were passed on, and the next
// `count` are held. Thing k lies at k modulo N, so nothing is searched or shifted; a row is plain and allocates nothing,
// like the whole table that it lies in. A list has at most 65,536 records, so no more than that are ever passed on.
#[derive(Copy)]
pub struct Row<T, const N: usize> {
    pub passed: u32,
    pub count: u32,
    pub slots: [T; N],
    ghost few: { count ≤ N },
    ghost low: { passed ≤ 65536 },
}

// By hand: neither `derive` nor `derive_where` covers a generic struct with ghost fields.
impl<T: Copy, const N: usize> Clone for Row<T, N> {
    ghost is_clone = { λ given copy. copy ≡ given };

    ghost is_infallible = { λ _. ⊤ };

    fn clone(&self) -> Result<Self, AllocError> {
        Ok(*self)
    }
}

// A message that is not delivered yet, and the sequencer that it is assigned to, under that printer's role number. The
// two are a pair, here and wherever they are asked or compared, by a rule of the project.
#[derive(Clone, Copy)]
pub struct Held {
    pub kind: RecordKind,
    pub assigned: (u32, RoleNumber),
}

// The messages held of one sender. They are numbered from 1, so `passed` is the number of the last one passed on too.
pub type MessageRow = Row<Held, 8>;

// What is kept of a ticket in its issuer's row. Sender and number of a message stay two, here and in what is asked of a
// backlog: one picks the row, the other the place in it, and a struct would be taken apart at each use. The sender, and
// the issuer of a ticket, are plain numbers: the order of tickets is defined of all numbers, and who needs a printer
// tests and makes one.
#[derive(Clone, Copy)]
pub struct Stub {
    pub number: TicketNumber,
    pub sender: u32,
    pub message: MessageNumber,
}

// The tickets held of one issuer, numbered from 0 in the order in which it issued them, which is that of their own
// numbers.
pub type TicketRow = Row<Stub, 16>;

// A ticket: its number, who issued it, and the message that it gives a place.
#[derive(Clone, Copy)]
pub struct Ticket {
    pub number: TicketNumber,
    pub issuer: u32,
    pub sender: u32,
    pub message: MessageNumber,
}
