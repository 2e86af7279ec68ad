// What keeps a queue of frames for each pair of printers.
ghost use Rattle.std.specs.Prelude.{◌≡◌, ℕ};

// How many frames wait for each pair. Nothing is asked of a caller: numbers of printers that there are not are answered too.
pub trait Queues {
    ghost queued: { Self → ℕ → ℕ → ℕ };

    fn waiting(&self, sender: u32, receiver: u32) -> usize
        ensures { result ≡ queued self.now sender receiver };
}
