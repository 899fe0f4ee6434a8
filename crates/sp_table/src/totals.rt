//! Sums over all states.

ghost use Rattle.std.specs.Prelude.{◌≡◌, ◌≤◌, ◌<◌, ◌*◌, ◌^◌, ◌*ℤ◌, ◌≤ℤ◌, ℕ, pos, length, slice_index, unsigned_abs, IfOk};
ghost use Rattle.sp_dd.specs.Floors.{sum_to};
ghost use Rattle.sp_dd.specs.Points.{product, point_at, state_widths};
ghost use Rattle.sp_dd.specs.Func.{Everywhere, IsOnUnprimed, value_of};
ghost use Rattle.sp_dd.specs.Operations.{state_dot, state_total};
ghost use Rattle.sp_table.specs.Widths.{AreWidths};

use crate::Table;
use crate::arithmetic::{product_of, sum_of};
use crate::cells::value_in;
use crate::frames::room;
use sp_dd::{NoMemory, Scope};
use std::alloc::{AllocError, Global};

/// The sum of `w * f` over all states.
pub fn dot(alloc: Global, w: &Table, f: &Table) -> Result<i128, NoMemory>
    requires scopes { w.now.shape ≡ f.now.shape }
    requires unprimed_w { IsOnUnprimed w.now }
    requires unprimed_f { IsOnUnprimed f.now }
    requires not_negative { Everywhere w.now (λ v. pos 0 ≤ℤ v) }
    requires total { state_total w.now ≤ℤ pos (2 ^ 62) }
    requires small { Everywhere f.now (λ v. unsigned_abs v ≤ 2 ^ 62) }
    ensures { IfOk result (λ r. r ≡ state_dot w.now f.now) }
{
    let widths = unprimed_widths(alloc, w.scope())?;
    let to = widths.as_slice();
    let count = room(to)?;
    Ok(products(w, f, to, count))
}

/// The sizes of the unprimed state slots, and 1 for each other slot.
fn unprimed_widths(alloc: Global, scope: &Scope) -> Result<Vec<u64>, AllocError>
    ensures { IfOk result (λ v. v.items ≡ state_widths scope.now.variables scope.now.sizes) }
{
    let slots = scope.slots();
    let mut widths = Vec::new(alloc);
    for slot in 0..slots {
        widths.push(unprimed_width(scope, slot))?;
    }
    Ok(widths)
}

/// The size of an unprimed state slot, and 1 for each other slot.
fn unprimed_width(scope: &Scope, slot: u64) -> u64
    requires { slot < length scope.now.sizes }
    ensures { result ≡ slice_index (state_widths scope.now.variables scope.now.sizes) slot }
{
    let _ = scope.slots();
    let variables = scope.variables();
    if slot / 2 >= variables {
        return 1;
    }
    if slot % 2 == 1 {
        return 1;
    }
    scope.size(slot)
}

/// The sum of the products at each point of some widths.
fn products(w: &Table, f: &Table, widths: &[u64], count: usize) -> i128
    requires w { AreWidths w.now.shape widths.now }
    requires f { AreWidths f.now.shape widths.now }
    requires not_negative { Everywhere w.now (λ v. pos 0 ≤ℤ v) }
    requires total { sum_to count (λ k. value_of w.now (point_at widths.now k)) ≤ℤ pos (2 ^ 62) }
    requires small { Everywhere f.now (λ v. unsigned_abs v ≤ 2 ^ 62) }
    ensures { result ≡ sum_to count (λ k. value_of w.now (point_at widths.now k) *ℤ value_of f.now (point_at widths.now k)) }
{
    let mut sum = 0i128;
    for k in 0..count {
        let weight = value_in(w, widths, k);
        let value = value_in(f, widths, k);
        let product = product_of(weight, value);
        sum = sum_of(sum, product);
    }
    sum
}
