//! Conditions on the values of a function.

ghost use Rattle.std.specs.Prelude.{◌≡◌, ◌≤◌, ◌≤ℤ◌, unsigned_abs};
ghost use Rattle.std.specs.Bool.{OnTrue, OnFalse};
ghost use Rattle.sp_dd.specs.Func.{Everywhere};
ghost use Rattle.sp_trees.specs.Conditions as spec;

use sp_model::Func;
use sp_model::functions::{greatest, least};

/// Whether each value lies between two numbers.
fn lies_between(f: &Func, low: i128, high: i128) -> bool
    ensures yes { OnTrue result (Everywhere f.now (λ v. (low ≤ℤ v) × (v ≤ℤ high))) }
    ensures no { OnFalse result (spec.HasOutside low high f.now) }
{
    low <= least(f) && greatest(f) <= high
}

fn signed(is_negative: bool, magnitude: u64) -> i128
    ensures { result ≡ spec.signed_magnitude is_negative magnitude }
{
    let value = i128::from(magnitude);
    if is_negative { -value } else { value }
}

/// Whether no value exceeds the bound in magnitude. Takes no memory.
pub(crate) fn is_within(most: u64, f: &Func) -> bool
    ensures value { result ≡ spec.is_within most f.now }
    ensures bound { OnTrue result (Everywhere f.now (λ v. unsigned_abs v ≤ most)) }
{
    let _ = f.scope();
    lies_between(f, signed(true, most), signed(false, most))
}
