//! Tests of what the calls on diagrams ask for.
ghost use Rattle.std.specs.Prelude.{◌≡◌, pos, ◌*ℤ◌, ◌^◌, ◌<◌, ◌≤◌, ◌↔◌, length, unsigned_abs, All, IfOk, IsTrue};
ghost use Rattle.std.specs.Bool.{OnTrue, OnFalse};
ghost use Rattle.sp_dd.specs.Floors.{ticks};
ghost use Rattle.sp_dd.specs.Func.{Everywhere, IsOnPrimed, IsOnUnprimed, IsPointOf, size_of};
ghost use Rattle.sp_dd.specs.Operations.{summed_out, IsRow};
ghost use Rattle.sp_yardstick.specs.Guards.{AreGuardedWeights, IsFreeOfEach, IsFreeOfOthers};

use crate::bounds::{are_within, multiplicand};
use crate::scopes;
use sp_dd::{Diagram, NoMemory, Scope, TICKS};
use sp_ddops::{first_apart, greatest, least, sum_out};
use std::alloc::Global;

/// Whether no value is farther than `bound` from 0.
pub fn is_within(f: &Diagram, bound: u128) -> bool
    ensures { IsTrue result ↔ Everywhere f.now (λ v. unsigned_abs v ≤ bound) }
{
    let low = least(f);
    let high = greatest(f);
    are_within(low, high, bound)
}

/// Whether two functions have one scope.
pub fn has_same_scope(f: &Diagram, g: &Diagram) -> bool
    ensures { IsTrue result ↔ (f.now.shape ≡ g.now.shape) }
{
    scopes::are_same(f.scope(), g.scope())
}

/// Whether the function's scope has that slot.
pub fn has_slot(f: &Diagram, slot: u64) -> bool
    ensures { IsTrue result ↔ slot < length f.now.shape.sizes }
{
    scopes::has_slot(f.scope(), slot)
}

/// Whether a slot of the function's scope has that value.
pub fn has_value(f: &Diagram, slot: u64, value: u64) -> bool
    requires { slot < length f.now.shape.sizes }
    ensures { IsTrue result ↔ value < size_of f.now.shape slot }
{
    scopes::has_value(f.scope(), slot, value)
}

/// Whether the coordinates are a point of the function's scope.
pub fn is_point(f: &Diagram, point: &[u64]) -> bool
    ensures { IsTrue result ↔ IsPointOf f.now point.now }
{
    scopes::is_point(f.scope(), point)
}

/// Whether all functions have that scope.
pub fn are_of(scope: &Scope, parts: &[Diagram]) -> bool
    ensures { IsTrue result ↔ All (λ part. part.shape ≡ scope.now) parts.now }
{
    for part in parts {
        if !scopes::are_same(part.scope(), scope) {
            return false;
        }
    }
    true
}

/// Whether no value times `k` is farther than 2^126 from 0. A no may come where a product is near that bound.
pub fn is_within_times(f: &Diagram, k: i128) -> bool
    ensures { OnTrue result (Everywhere f.now (λ v. unsigned_abs (k *ℤ v) ≤ 2 ^ 126)) }
{
    is_within(f, multiplicand(k))
}

/// Whether the function depends on unprimed state slots alone.
pub fn is_on_unprimed(f: &Diagram) -> bool
    ensures yes { OnTrue result (IsOnUnprimed f.now) }
    ensures no { OnFalse result (¬ IsOnUnprimed f.now) }
{
    is_free_of_each(f, 1) && is_free_of_others(f)
}

/// Whether the function depends on primed state slots alone.
pub fn is_on_primed(f: &Diagram) -> bool
    ensures yes { OnTrue result (IsOnPrimed f.now) }
    ensures no { OnFalse result (¬ IsOnPrimed f.now) }
{
    is_free_of_each(f, 0) && is_free_of_others(f)
}

/// Whether the function depends on no slot `2i + first` of a state variable `i`.
fn is_free_of_each(f: &Diagram, first: u64) -> bool
    requires { first ≤ 1 }
    ensures yes { OnTrue result (IsFreeOfEach f.now first) }
    ensures no { OnFalse result (¬ IsFreeOfEach f.now first) }
{
    let scope = f.scope();
    let _ = scope.slots();
    for i in 0..scope.variables() {
        if f.depends(2 * i + first) {
            return false;
        }
    }
    true
}

/// Whether the function depends on no slot behind those of the state variables.
fn is_free_of_others(f: &Diagram) -> bool
    ensures yes { OnTrue result (IsFreeOfOthers f.now) }
    ensures no { OnFalse result (¬ IsFreeOfOthers f.now) }
{
    let scope = f.scope();
    let slots = scope.slots();
    let behind = 2 * scope.variables();
    for j in 0..slots - behind {
        if f.depends(behind + j) {
            return false;
        }
    }
    true
}

/// Whether for each point the weights of a slot's values are at least 0 and sum to one.
pub fn is_row(alloc: Global, p: &Diagram, slot: u64) -> Result<bool, NoMemory>
    requires { slot < length p.now.shape.sizes }
    ensures { IfOk result (λ yes. IsTrue yes ↔ IsRow p.now slot) }
{
    let _ = p.scope();
    if least(p) < 0 {
        return Ok(false);
    }
    if !is_within(p, 1_000_000_000) {
        return Ok(false);
    }
    let whole = sums_to_one(alloc, p, slot)?;
    Ok(whole)
}

/// Whether the sum over a slot's values is one at each point.
fn sums_to_one(alloc: Global, p: &Diagram, slot: u64) -> Result<bool, NoMemory>
    requires slot { slot < length p.now.shape.sizes }
    requires small { Everywhere p.now (λ v. unsigned_abs v ≤ ticks) }
    ensures { IfOk result (λ yes. IsTrue yes ↔ Everywhere (summed_out p.now slot) (λ u. u ≡ pos ticks)) }
{
    let total = sum_out(alloc, p, slot)?;
    let apart = first_apart(alloc, &total, TICKS)?;
    Ok(apart.is_none())
}

/// Whether no weight is negative and their sum over all states is at most 2^62. A no may come where the greatest weight times the
/// number of states is more than that.
pub fn are_weights(w: &Diagram) -> bool
    ensures { OnTrue result (AreGuardedWeights w.now) }
{
    let low = least(w);
    let high = greatest(w);
    if low < 0 || high > 0x4000_0000_0000_0000 {
        return false;
    }
    scopes::is_total_within(w.scope(), high as u64)
}
