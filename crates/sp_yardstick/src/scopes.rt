//! Tests of scopes, slots and points.
ghost use Rattle.std.specs.Prelude.{◌≡◌, ℕ, ◌+◌, ◌*◌, ◌^◌, ◌<◌, ◌≤◌, ◌↔◌, length, slice_index, IsTrue};
ghost use Rattle.std.specs.Bool.{OnTrue, OnFalse};
ghost use Rattle.sp_dd.specs.Points.{AllSizes, IsPoint, IsShape, state_widths};
ghost use Rattle.sp_dd.specs.Func.{size_of, state_count};
ghost use Rattle.sp_dd.specs.Operations.{IsPrimedSlot};

use sp_dd::{Ids, Scope};

/// Whether a scope can have slots of these sizes.
pub fn is_shape(sizes: &Ids, variables: u64) -> bool
    ensures { IsTrue result ↔ IsShape sizes.now variables }
{
    let slots = sizes.len();
    if slots > 56 || variables > 28 {
        return false;
    }
    if 2 * variables > slots {
        return false;
    }
    are_sizes(sizes) && are_paired(sizes, variables)
}

/// Whether each slot has 1 to 64 values.
fn are_sizes(sizes: &Ids) -> bool
    ensures { IsTrue result ↔ AllSizes sizes.now }
{
    let slots = sizes.len();
    for slot in 0..slots {
        let size = *sizes.at(slot);
        if size < 1 {
            return false;
        }
        if size > 64 {
            return false;
        }
    }
    true
}

/// Whether both slots of each state variable have equal sizes.
fn are_paired(sizes: &Ids, variables: u64) -> bool
    requires few { variables ≤ 28 }
    requires paired { 2 * variables ≤ length sizes.now }
    ensures { IsTrue result ↔ ((i : ℕ) → i < variables → slice_index sizes.now (2 * i) ≡ slice_index sizes.now (2 * i + 1)) }
{
    for i in 0..variables {
        if *sizes.at(2 * i) != *sizes.at(2 * i + 1) {
            return false;
        }
    }
    true
}

/// Whether two scopes are one.
pub fn are_same(scope: &Scope, other: &Scope) -> bool
    ensures { IsTrue result ↔ (scope.now ≡ other.now) }
{
    if scope.slots() != other.slots() {
        return false;
    }
    scope.variables() == other.variables() && are_equal(scope, other)
}

/// Whether the slots of two scopes have equal sizes.
fn are_equal(scope: &Scope, other: &Scope) -> bool
    requires { length scope.now.sizes ≡ length other.now.sizes }
    ensures { IsTrue result ↔ (scope.now.sizes ≡ other.now.sizes) }
{
    for slot in 0..scope.slots() {
        if scope.size(slot) != other.size(slot) {
            return false;
        }
    }
    true
}

/// Whether a scope has that slot.
pub fn has_slot(scope: &Scope, slot: u64) -> bool
    ensures { IsTrue result ↔ slot < length scope.now.sizes }
{
    slot < scope.slots()
}

/// Whether a slot has that value.
pub fn has_value(scope: &Scope, slot: u64, value: u64) -> bool
    requires { slot < length scope.now.sizes }
    ensures { IsTrue result ↔ value < size_of scope.now slot }
{
    value < scope.size(slot)
}

/// Whether the coordinates are a point: one for each slot, below its size.
pub fn is_point(scope: &Scope, point: &[u64]) -> bool
    ensures { IsTrue result ↔ IsPoint scope.now.sizes point.now }
{
    if point.len() as u64 != scope.slots() {
        return false;
    }
    are_below(scope, point)
}

/// Whether each coordinate is below its slot's size.
fn are_below(scope: &Scope, point: &[u64]) -> bool
    requires { length point.now ≡ length scope.now.sizes }
    ensures { IsTrue result ↔ IsPoint scope.now.sizes point.now }
{
    for slot in 0..point.len() {
        if point[slot] >= scope.size(slot as u64) {
            return false;
        }
    }
    true
}

/// Whether a slot is that of a state variable's next value.
pub fn is_primed(scope: &Scope, slot: u64) -> bool
    ensures yes { OnTrue result (IsPrimedSlot scope.now slot) }
    ensures no { OnFalse result (¬ IsPrimedSlot scope.now slot) }
{
    slot % 2 == 1 && slot / 2 < scope.variables()
}

/// Whether so much in each state is at most 2^62 in all.
pub fn is_total_within(scope: &Scope, each: u64) -> bool
    ensures { OnTrue result (each * state_count scope.now ≤ 2 ^ 62) }
{
    let mut total = each;
    for slot in 0..scope.slots() {
        match total.checked_mul(state_width(scope, slot)) {
            Some(next) => total = next,
            None => return false,
        }
    }
    total <= 0x4000_0000_0000_0000
}

/// The size of an unprimed state slot, and 1 for each other slot.
fn state_width(scope: &Scope, slot: u64) -> u64
    requires { slot < length scope.now.sizes }
    ensures { result ≡ slice_index (state_widths scope.now.variables scope.now.sizes) slot }
{
    let _ = scope.slots();
    let variables = scope.variables();
    if slot / 2 >= variables {
        return 1;
    }
    if slot % 2 == 1 {
        return 1;
    }
    scope.size(slot)
}
