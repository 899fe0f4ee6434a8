//! Sums and products of whole numbers that are small enough.

ghost use Rattle.std.specs.Prelude.{pos, ◌≡◌, ◌≤◌, ◌+◌, ◌*◌, ◌^◌, ◌+ℤ◌, ◌*ℤ◌, unsigned_abs};
ghost use Rattle.sp_dd.specs.Floors.{floor_div, ticks};

use sp_dd::TICKS;

/// The sum of two numbers.
pub(crate) fn sum_of(a: i128, b: i128) -> i128
    requires small_a { unsigned_abs a ≤ 2 ^ 125 }
    requires small_b { unsigned_abs b ≤ 2 ^ 125 }
    ensures value { result ≡ a +ℤ b }
    ensures bound { unsigned_abs result ≤ unsigned_abs a + unsigned_abs b }
{
    a + b
}

/// The product of two numbers.
pub(crate) fn product_of(a: i128, b: i128) -> i128
    requires small_a { unsigned_abs a ≤ 2 ^ 62 }
    requires small_b { unsigned_abs b ≤ 2 ^ 62 }
    ensures value { result ≡ a *ℤ b }
    ensures bound { unsigned_abs result ≤ unsigned_abs a * unsigned_abs b }
{
    a * b
}

/// A number of ticks, rounded down.
pub(crate) fn floor_of(sum: i128) -> i128
    ensures { result ≡ floor_div sum ticks }
{
    sum.div_euclid(TICKS)
}

/// A number times another, where the product is small.
pub(crate) fn multiple_of(k: i128, v: i128) -> i128
    requires { unsigned_abs (k *ℤ v) ≤ 2 ^ 126 }
    ensures { result ≡ k *ℤ v }
{
    k * v
}

/// A whole number of ones, in ticks.
pub(crate) fn in_ticks(v: i128) -> i128
    requires { unsigned_abs v ≤ 2 ^ 95 }
    ensures { result ≡ v *ℤ pos ticks }
{
    v * TICKS
}
