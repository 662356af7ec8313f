//! How the sends of a batch are distributed.

ghost use Rattle.std.specs.Prelude.{◌≡◌, ◌≤◌, ◌<◌, ◌+◌, ◌^◌, ◌/◌, ◌%◌, ◌==◌};
ghost use Rattle.msg_answers.specs.Serving.{worker_of};

/// Pieces of `cut` sends, given to the workers in turn. The first piece has the number `first`.
#[derive(Clone, Copy)]
pub struct Deal {
    pub workers: u32,
    pub cut: u32,
    pub first: u32,
    pub ghost some_workers: { 1 ≤ workers },
    pub ghost some_places: { 1 ≤ cut },
}

impl Deal {
    /// The worker that takes a place.
    pub fn worker(self, place: usize) -> usize
        ensures turn { result ≡ worker_of self.cut self.workers place }
        ensures below { result < self.workers }
    {
        (place / self.cut as usize) % self.workers as usize
    }

    /// The number of the piece of a place.
    pub fn piece(self, place: usize) -> u32
        requires { self.first + place < 2 ^ 32 }
        ensures { result ≡ self.first + place / self.cut }
    {
        self.first + (place / self.cut as usize) as u32
    }

    /// Whether a place is the first of its piece.
    pub fn begins(self, place: usize) -> bool
        ensures { result ≡ (place % self.cut == 0) }
    {
        place % self.cut as usize == 0
    }

    /// The same deal among this number of workers.
    pub fn with_workers(self, workers: u32) -> Deal
        requires { 1 ≤ workers }
        ensures workers { result.workers ≡ workers }
        ensures cut { result.cut ≡ self.cut }
        ensures first { result.first ≡ self.first }
    {
        Deal {
            workers,
            cut: self.cut,
            first: self.first,
        }
    }

    // The deal after this number of pieces.
    pub(crate) fn after(self, pieces: u32) -> Deal
        requires { self.first + pieces < 2 ^ 32 }
        ensures workers { result.workers ≡ self.workers }
        ensures cut { result.cut ≡ self.cut }
        ensures first { result.first ≡ self.first + pieces }
    {
        Deal {
            workers: self.workers,
            cut: self.cut,
            first: self.first + pieces,
        }
    }
}
