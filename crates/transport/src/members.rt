// Which printers there are, and which of them are open.
ghost use Rattle.std.specs.Prelude.{◌≤◌};

use crate::queues::Queues;
use frame::PrinterCount;

// The printers of a hall, at most eight. The flag of a printer that there is not counts for nothing: fixed memory has a
// place for each printer number.
#[derive(Drop)]
pub struct Members {
    size: u32,
    open: [bool; 8],
    ghost few: { size ≤ 8 },
}

impl Members {
    ghost use Rattle.std.specs.Prelude.{◌≡◌, ℕ, ◌≤◌, ◌<◌, ◌-◌, ◌==◌, ◌&&◌, cond, false, nat_lt};
    ghost use Rattle.transport.specs.Members.{opened, is_open_in, hears_in, reaches};
    ghost use Rattle.transport.specs.Nets.{least_below};

    // So many printers, all open.
    pub fn all_open(count: PrinterCount) -> Members
        ensures size { result.size ≡ count.value }
        ensures open { (j : ℕ) → opened result j ≡ nat_lt j count.value }
    {
        Members {
            size: count.value,
            open: [true; 8],
        }
    }

    // How many printers there are.
    pub fn size(&self) -> u32
        ensures { result ≡ self.now.size }
    {
        self.size
    }

    // Whether there is such a printer and it is open.
    pub fn is_open(&self, printer: u32) -> bool
        ensures { result ≡ is_open_in self.now printer }
    {
        printer < self.size && self.open[printer as usize]
    }

    // Whether a printer is to get what the sender posts.
    pub fn hears(&self, sender: u32, receiver: u32) -> bool
        ensures { result ≡ hears_in self.now sender receiver }
    {
        self.is_open(receiver) && receiver != sender
    }

    // Whether frames may wait for a pair: both printers are there, and the receiver is open.
    pub fn reaches(&self, sender: u32, receiver: u32) -> bool
        ensures { result ≡ reaches self.now sender receiver }
    {
        sender < self.size && self.is_open(receiver)
    }

    // Closes a printer, if there is one of this number.
    pub fn shut(&mut self, printer: u32)
        ensures size { self.new.size ≡ self.old.size }
        ensures open { (j : ℕ) → opened self.new j ≡ cond (j == printer && nat_lt j self.old.size) false (opened self.old j) }
    {
        if printer < self.size {
            self.open[printer as usize] = false;
        }
    }

    // How many posts a sender could make in a row, where a pair holds at most `limit` frames.
    pub fn most_posts<Q: Queues>(&self, sender: u32, limit: usize, queues: &Q) -> usize
        ensures { result ≡ cond (nat_lt sender self.now.size) (least_below self.now.size (λ j. cond (hears_in self.now sender j) (limit - Q.queued queues.now sender j) limit) limit) 0 }
    {
        if sender >= self.size {
            return 0;
        }
        // A loop: it ends at the first full pair.
        let mut least = limit;
        for receiver in 0..self.size {
            if self.hears(sender, receiver) {
                let waiting = queues.waiting(sender, receiver);
                if waiting >= limit {
                    return 0;
                }
                least = least.min(limit - waiting);
            }
        }
        least
    }
}
