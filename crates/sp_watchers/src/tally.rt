//! Numbers that come one after another.

/// What is known of the numbers that came.
#[derive(Clone, Copy, Drop)]
pub struct Tally {
    /// The last one, first 0.
    pub last: u64,
    /// Whether one was less than the one before it, or than it had to be.
    pub fell: bool,
    /// How many were greater than the one before, and than what was told.
    pub rises: u64,
}

impl Tally {
    /// No number came yet.
    pub fn new() -> Tally {
        Tally {
            last: 0,
            fell: false,
            rises: 0,
        }
    }

    /// The next number, which has to be at least the one before, and at least `told`.
    pub fn note(&mut self, number: u64, told: u64) {
        if number < self.last || number < told {
            self.fell = true;
        }
        if number > self.last && number > told {
            self.rises = self.rises.wrapping_add(1);
        }
        self.last = number;
    }
}
