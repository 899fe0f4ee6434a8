//! Searches for the first point of some widths at which something holds.

ghost use Rattle.std.specs.Prelude.{◌≡◌, ◌≢◌, ◌<◌, ◌≤ℤ◌, ◌<ℤ◌, slice_set};
ghost use Rattle.std.specs.Bool.{OnTrue, OnFalse};
ghost use Rattle.sp_dd.specs.Points.{point_at};
ghost use Rattle.sp_dd.specs.Func.{value_of, size_of};
ghost use Rattle.sp_table.specs.Widths.{AreWidths};
ghost use Rattle.sp_table.specs.Searches.{FirstOf};

use crate::Table;
use crate::cells::{value_in, value_with};

/// The first place at which one function is above another.
pub(crate) fn first_above(f: &Table, g: &Table, widths: &[u64], count: usize) -> Option<usize>
    requires f { AreWidths f.now.shape widths.now }
    requires g { AreWidths g.now.shape widths.now }
    ensures { FirstOf count (λ k. value_of f.now (point_at widths.now k) ≤ℤ value_of g.now (point_at widths.now k)) (λ k. value_of g.now (point_at widths.now k) <ℤ value_of f.now (point_at widths.now k)) result }
{
    for k in 0..count {
        if above_at(f, g, widths, k) {
            return Some(k);
        }
    }
    None
}

/// Whether one function is above another at the point at a place.
fn above_at(f: &Table, g: &Table, widths: &[u64], k: usize) -> bool
    requires f { AreWidths f.now.shape widths.now }
    requires g { AreWidths g.now.shape widths.now }
    ensures yes { OnTrue result (value_of g.now (point_at widths.now k) <ℤ value_of f.now (point_at widths.now k)) }
    ensures no { OnFalse result (value_of f.now (point_at widths.now k) ≤ℤ value_of g.now (point_at widths.now k)) }
{
    let a = value_in(f, widths, k);
    let b = value_in(g, widths, k);
    if b < a {
        return true;
    }
    false
}

/// The first place at which two functions differ.
pub(crate) fn first_unequal(f: &Table, g: &Table, widths: &[u64], count: usize) -> Option<usize>
    requires f { AreWidths f.now.shape widths.now }
    requires g { AreWidths g.now.shape widths.now }
    ensures { FirstOf count (λ k. value_of f.now (point_at widths.now k) ≡ value_of g.now (point_at widths.now k)) (λ k. value_of f.now (point_at widths.now k) ≢ value_of g.now (point_at widths.now k)) result }
{
    for k in 0..count {
        if !equal_at(f, g, widths, k) {
            return Some(k);
        }
    }
    None
}

/// Whether two functions are equal at the point at a place.
fn equal_at(f: &Table, g: &Table, widths: &[u64], k: usize) -> bool
    requires f { AreWidths f.now.shape widths.now }
    requires g { AreWidths g.now.shape widths.now }
    ensures yes { OnTrue result (value_of f.now (point_at widths.now k) ≡ value_of g.now (point_at widths.now k)) }
    ensures no { OnFalse result (value_of f.now (point_at widths.now k) ≢ value_of g.now (point_at widths.now k)) }
{
    let a = value_in(f, widths, k);
    let b = value_in(g, widths, k);
    if a == b {
        return true;
    }
    false
}

/// The first place at which a function isn't a number.
pub(crate) fn first_other(f: &Table, widths: &[u64], count: usize, v: i128) -> Option<usize>
    requires f { AreWidths f.now.shape widths.now }
    ensures { FirstOf count (λ k. value_of f.now (point_at widths.now k) ≡ v) (λ k. value_of f.now (point_at widths.now k) ≢ v) result }
{
    for k in 0..count {
        if !is_at(f, widths, k, v) {
            return Some(k);
        }
    }
    None
}

/// Whether a function is a number at the point at a place.
fn is_at(f: &Table, widths: &[u64], k: usize, v: i128) -> bool
    requires f { AreWidths f.now.shape widths.now }
    ensures yes { OnTrue result (value_of f.now (point_at widths.now k) ≡ v) }
    ensures no { OnFalse result (value_of f.now (point_at widths.now k) ≢ v) }
{
    let a = value_in(f, widths, k);
    if a == v {
        return true;
    }
    false
}

/// The first place at which another value of a slot, the first one, changes a function.
pub(crate) fn first_moved(f: &Table, widths: &[u64], count: usize, slot: usize) -> Option<usize>
    requires f { AreWidths f.now.shape widths.now }
    requires some { 0 < size_of f.now.shape slot }
    ensures { FirstOf count (λ k. value_of f.now (slice_set (point_at widths.now k) slot 0) ≡ value_of f.now (point_at widths.now k)) (λ k. value_of f.now (slice_set (point_at widths.now k) slot 0) ≢ value_of f.now (point_at widths.now k)) result }
{
    for k in 0..count {
        if !stays_at(f, widths, k, slot) {
            return Some(k);
        }
    }
    None
}

/// Whether the first value of a slot leaves a function's value at the point at a place.
fn stays_at(f: &Table, widths: &[u64], k: usize, slot: usize) -> bool
    requires f { AreWidths f.now.shape widths.now }
    requires some { 0 < size_of f.now.shape slot }
    ensures yes { OnTrue result (value_of f.now (slice_set (point_at widths.now k) slot 0) ≡ value_of f.now (point_at widths.now k)) }
    ensures no { OnFalse result (value_of f.now (slice_set (point_at widths.now k) slot 0) ≢ value_of f.now (point_at widths.now k)) }
{
    let a = value_with(f, widths, k, slot, 0);
    let b = value_in(f, widths, k);
    if a == b {
        return true;
    }
    false
}
