//! Tests of numbers against a bound.
ghost use Rattle.std.specs.Prelude.{◌≤◌, ◌*ℤ◌, ◌^◌, ◌↔◌, ℤ, unsigned_abs, IsTrue};

/// Whether two numbers are at most `bound` from 0.
pub(crate) fn are_within(low: i128, high: i128, bound: u128) -> bool
    ensures { IsTrue result ↔ ((unsigned_abs low ≤ bound) × (unsigned_abs high ≤ bound)) }
{
    low.unsigned_abs() <= bound && high.unsigned_abs() <= bound
}

/// A bound of numbers that stay within 2^126 when they are multiplied by `k`.
pub(crate) fn multiplicand(k: i128) -> u128
    ensures { (v : ℤ) → unsigned_abs v ≤ result → unsigned_abs (k *ℤ v) ≤ 2 ^ 126 }
{
    0x4000_0000_0000_0000_0000_0000_0000_0000 / k.unsigned_abs().max(1)
}
