//! Calls that compare functions at all points.

ghost use Rattle.std.specs.Prelude.{◌≡◌, ◌<◌, length, IfOk, MatchOption};
ghost use Rattle.std.specs.Bool.{OnTrue, OnFalse};
ghost use Rattle.sp_dd.specs.Points.{product, point_at};
ghost use Rattle.sp_dd.specs.Func.{DependsOn, Everywhere, IsIndependentOf};
ghost use Rattle.sp_dd.specs.Operations.{IsAtMost, IsFirstAbove, IsFirstApart};
ghost use Rattle.sp_table.specs.Widths.{Agrees, Differs};

use crate::Table;
use crate::frames::{own_widths, room, widths_of_two};
use crate::places::digit_of;
use crate::searches::{first_above, first_moved, first_other, first_unequal};
use sp_dd::{Ids, NoMemory};
use std::alloc::Global;

/// The first point in slot order at which `f` is above `g`.
pub fn below(alloc: Global, f: &Table, g: &Table) -> Result<Option<Ids>, NoMemory>
    requires { f.now.shape ≡ g.now.shape }
    ensures { IfOk result (λ answer. MatchOption answer (IsAtMost f.now g.now) (λ point. IsFirstAbove f.now g.now point)) }
{
    let widths = widths_of_two(alloc, f, g)?;
    let to = widths.as_slice();
    let count = room(to)?;
    match first_above(f, g, to, count) {
        None => Ok(None),
        Some(k) => {
            let point = point_of(alloc, to, k)?;
            Ok(Some(point))
        }
    }
}

/// The first point in slot order at which `f` isn't `v`.
pub fn first_apart(alloc: Global, f: &Table, v: i128) -> Result<Option<Ids>, NoMemory>
    ensures { IfOk result (λ answer. MatchOption answer (Everywhere f.now (λ u. u ≡ v)) (λ point. IsFirstApart f.now v point)) }
{
    let widths = own_widths(alloc, f)?;
    let to = widths.as_slice();
    let count = room(to)?;
    match first_other(f, to, count, v) {
        None => Ok(None),
        Some(k) => {
            let point = point_of(alloc, to, k)?;
            Ok(Some(point))
        }
    }
}

/// The point at a place.
fn point_of(alloc: Global, widths: &[u64], k: usize) -> Result<Ids, NoMemory>
    requires { 0 < product widths.now }
    ensures { IfOk result (λ point. point ≡ point_at widths.now k) }
{
    let mut point = Ids::new(alloc);
    for slot in 0..widths.len() {
        point.push(digit_of(widths, k, slot) as u64)?;
    }
    Ok(point)
}

/// Whether two functions are equal at each point of the first one's widths.
pub(crate) fn agrees(f: &Table, g: &Table) -> bool
    requires { f.now.shape ≡ g.now.shape }
    ensures yes { OnTrue result (Agrees f.now g.now) }
    ensures no { OnFalse result (Differs f.now g.now) }
{
    let widths = f.widths.as_slice();
    let count = f.cells.len();
    match first_unequal(f, g, widths, count) {
        None => true,
        Some(_) => false,
    }
}

/// Whether a slot changes the value at some point.
pub(crate) fn moves(f: &Table, slot: usize) -> bool
    requires { slot < length f.now.shape.sizes }
    ensures yes { OnTrue result (DependsOn f.now slot) }
    ensures no { OnFalse result (IsIndependentOf f.now slot) }
{
    let widths = f.widths.as_slice();
    let count = f.cells.len();
    match first_moved(f, widths, count, slot) {
        None => false,
        Some(_) => true,
    }
}
