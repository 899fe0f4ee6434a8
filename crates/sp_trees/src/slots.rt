//! Sets of slots.

ghost use Rattle.std.specs.Prelude.{◌≡◌, ◌<◌};
ghost use Rattle.sp_trees.specs.Slots as spec;

/// A set of numbers below 64, of slots or of the values of one slot: one bit for each. No call takes memory.
#[derive(Clone, Copy, Debug, Drop, PartialEq, Eq)]
pub struct Slots {
    pub bits: u64,
}

impl Slots {
    /// The empty set.
    pub fn none() -> Slots
        ensures { result ≡ spec.none }
    {
        Slots { bits: 0 }
    }

    /// The set of one slot.
    pub fn one(slot: u64) -> Slots
        requires { slot < 64 }
        ensures { result ≡ spec.one slot }
    {
        Slots { bits: 1 << slot }
    }

    /// The slots of both sets.
    pub fn union(self, other: Slots) -> Slots
        ensures { result ≡ spec.union self other }
    {
        Slots {
            bits: self.bits | other.bits,
        }
    }

    /// Whether the set has a slot.
    pub fn has(self, slot: u64) -> bool
        requires { slot < 64 }
        ensures { result ≡ spec.has self slot }
    {
        self.bits >> slot & 1 == 1
    }

    /// Whether each of these slots is one of those.
    pub fn is_among(self, those: Slots) -> bool
        ensures { result ≡ spec.is_among self those }
    {
        self.bits & those.bits == self.bits
    }

    /// Whether some slot is in both sets.
    pub fn meets(self, other: Slots) -> bool
        ensures { result ≡ spec.meets self other }
    {
        self.bits & other.bits != 0
    }
}
