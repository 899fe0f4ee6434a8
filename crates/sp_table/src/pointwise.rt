//! Calls that combine values at the same point.

ghost use Rattle.std.specs.Prelude.{◌≡◌, ◌≤◌, ◌<◌, ◌^◌, ◌+ℤ◌, ◌*ℤ◌, [], ◌∷◌, length, map, unsigned_abs, IfOk, MatchOption, ℕ, pos, slice_index_or};
ghost use Rattle.std.specs.List.{range_with_len};
ghost use Rattle.std.specs.Int.{int_max};
ghost use Rattle.std.specs.Bool.{OnTrue, OnFalse};
ghost use Rattle.sp_table.specs.Searches.{FirstOf};
ghost use Rattle.sp_dd.specs.Floors.{floor_div, ticks};
ghost use Rattle.sp_dd.specs.Points.{product, point_at};
ghost use Rattle.sp_dd.specs.Func.{Everywhere, size_of, value_of};
ghost use Rattle.sp_dd.specs.Operations.{everywhere, leaf_chosen, part_chosen, plus, product_floor, IsWholeTick, IsProductWhole, HasPartialTick, scalar_multiple, larger_with};
ghost use Rattle.sp_table.specs.Widths.{AreWidths};

use crate::Table;
use crate::arithmetic::{floor_of, in_ticks, multiple_of, product_of, sum_of};
use crate::cells::value_in;
use crate::frames::{copied_widths, ones, room, widths_of_two};
use sp_dd::{NoMemory, Scope};
use std::alloc::{AllocError, Global};

/// The function with this value everywhere.
pub fn constant(alloc: Global, scope: &Scope, value: i128) -> Result<Table, NoMemory>
    ensures { IfOk result (λ r. r ≡ everywhere scope.now value) }
{
    let widths = ones(alloc, scope.slots() as usize)?;
    let cells = single(alloc, value)?;
    Ok(Table {
        scope: *scope,
        widths,
        cells,
    })
}

/// The function with the leaf of the slot's value.
pub fn leaf_by(alloc: Global, scope: &Scope, slot: u64, leaves: &[i128]) -> Result<Table, NoMemory>
    requires slot { slot < length scope.now.sizes }
    requires leaves { length leaves.now ≡ size_of scope.now slot }
    ensures { IfOk result (λ r. r ≡ leaf_chosen scope.now slot leaves.now) }
{
    let mut widths = ones(alloc, scope.slots() as usize)?;
    widths[slot as usize] = scope.size(slot);
    let cells = copied(alloc, leaves)?;
    Ok(Table {
        scope: *scope,
        widths,
        cells,
    })
}

/// The sum of two functions.
pub fn add(alloc: Global, f: &Table, g: &Table) -> Result<Table, NoMemory>
    requires scopes { f.now.shape ≡ g.now.shape }
    requires small_f { Everywhere f.now (λ v. unsigned_abs v ≤ 2 ^ 125) }
    requires small_g { Everywhere g.now (λ v. unsigned_abs v ≤ 2 ^ 125) }
    ensures { IfOk result (λ r. r ≡ plus f.now g.now) }
{
    let widths = widths_of_two(alloc, f, g)?;
    let to = widths.as_slice();
    let count = room(to)?;
    let cells = sums(alloc, f, g, to, count)?;
    Ok(Table {
        scope: f.scope,
        widths,
        cells,
    })
}

/// The product of two functions in ticks, rounded down.
pub fn mul_floor(alloc: Global, f: &Table, g: &Table) -> Result<Table, NoMemory>
    requires scopes { f.now.shape ≡ g.now.shape }
    requires small_f { Everywhere f.now (λ v. unsigned_abs v ≤ 2 ^ 62) }
    requires small_g { Everywhere g.now (λ v. unsigned_abs v ≤ 2 ^ 62) }
    ensures { IfOk result (λ r. r ≡ product_floor f.now g.now) }
{
    let widths = widths_of_two(alloc, f, g)?;
    let to = widths.as_slice();
    let count = room(to)?;
    let cells = floored_products(alloc, f, g, to, count)?;
    Ok(Table {
        scope: f.scope,
        widths,
        cells,
    })
}

/// The product of two functions in ticks, where it is a whole number of ticks at each point.
pub fn mul_whole(alloc: Global, f: &Table, g: &Table) -> Result<Option<Table>, NoMemory>
    requires scopes { f.now.shape ≡ g.now.shape }
    requires small_f { Everywhere f.now (λ v. unsigned_abs v ≤ 2 ^ 62) }
    requires small_g { Everywhere g.now (λ v. unsigned_abs v ≤ 2 ^ 62) }
    ensures { IfOk result (λ answer. MatchOption answer (HasPartialTick f.now g.now) (λ r. IsProductWhole f.now g.now × (r ≡ product_floor f.now g.now))) }
{
    let widths = widths_of_two(alloc, f, g)?;
    let to = widths.as_slice();
    let count = room(to)?;
    match first_partial(f, g, to, count) {
        Some(_) => Ok(None),
        None => {
            let product = mul_floor(alloc, f, g)?;
            Ok(Some(product))
        }
    }
}

/// The first place at which the product is no whole number of ticks.
fn first_partial(f: &Table, g: &Table, widths: &[u64], count: usize) -> Option<usize>
    requires f { AreWidths f.now.shape widths.now }
    requires g { AreWidths g.now.shape widths.now }
    requires small_f { Everywhere f.now (λ v. unsigned_abs v ≤ 2 ^ 62) }
    requires small_g { Everywhere g.now (λ v. unsigned_abs v ≤ 2 ^ 62) }
    ensures { FirstOf count (λ k. IsWholeTick (value_of f.now (point_at widths.now k) *ℤ value_of g.now (point_at widths.now k))) (λ k. ¬ IsWholeTick (value_of f.now (point_at widths.now k) *ℤ value_of g.now (point_at widths.now k))) result }
{
    for k in 0..count {
        if !whole_at(f, g, widths, k) {
            return Some(k);
        }
    }
    None
}

/// Whether the product at the point at a place is a whole number of ticks.
fn whole_at(f: &Table, g: &Table, widths: &[u64], k: usize) -> bool
    requires f { AreWidths f.now.shape widths.now }
    requires g { AreWidths g.now.shape widths.now }
    requires small_f { Everywhere f.now (λ v. unsigned_abs v ≤ 2 ^ 62) }
    requires small_g { Everywhere g.now (λ v. unsigned_abs v ≤ 2 ^ 62) }
    ensures yes { OnTrue result (IsWholeTick (value_of f.now (point_at widths.now k) *ℤ value_of g.now (point_at widths.now k))) }
    ensures no { OnFalse result (¬ IsWholeTick (value_of f.now (point_at widths.now k) *ℤ value_of g.now (point_at widths.now k))) }
{
    let a = value_in(f, widths, k);
    let b = value_in(g, widths, k);
    let product = product_of(a, b);
    if in_ticks(floor_of(product)) == product {
        return true;
    }
    false
}

/// A function times a whole number.
pub fn times(alloc: Global, f: &Table, k: i128) -> Result<Table, NoMemory>
    requires { Everywhere f.now (λ v. unsigned_abs (k *ℤ v) ≤ 2 ^ 126) }
    ensures { IfOk result (λ r. r ≡ scalar_multiple f.now k) }
{
    let own_widths = f.widths.as_slice();
    let own_cells = f.cells.as_slice();
    let widths = copied_widths(alloc, own_widths)?;
    let cells = multiples(alloc, own_cells, k)?;
    Ok(Table {
        scope: f.scope,
        widths,
        cells,
    })
}

/// The larger of a function and a number.
pub fn max_with(alloc: Global, f: &Table, least: i128) -> Result<Table, NoMemory>
    ensures { IfOk result (λ r. r ≡ larger_with f.now least) }
{
    let own_widths = f.widths.as_slice();
    let own_cells = f.cells.as_slice();
    let widths = copied_widths(alloc, own_widths)?;
    let cells = maxima(alloc, own_cells, least)?;
    Ok(Table {
        scope: f.scope,
        widths,
        cells,
    })
}

/// A list of one number.
fn single(alloc: Global, value: i128) -> Result<Vec<i128>, AllocError>
    ensures { IfOk result (λ v. v.items ≡ value ∷ []) }
{
    let mut cells = Vec::new(alloc);
    cells.push(value)?;
    Ok(cells)
}

/// The same numbers once more.
fn copied(alloc: Global, leaves: &[i128]) -> Result<Vec<i128>, AllocError>
    ensures { IfOk result (λ v. v.items ≡ leaves.now) }
{
    leaves.to_vec(alloc)
}

/// The sums at each point of some widths.
fn sums(
    alloc: Global,
    f: &Table,
    g: &Table,
    widths: &[u64],
    count: usize,
) -> Result<Vec<i128>, AllocError>
    requires count { count ≡ product widths.now }
    requires f { AreWidths f.now.shape widths.now }
    requires g { AreWidths g.now.shape widths.now }
    requires small_f { Everywhere f.now (λ v. unsigned_abs v ≤ 2 ^ 125) }
    requires small_g { Everywhere g.now (λ v. unsigned_abs v ≤ 2 ^ 125) }
    ensures { IfOk result (λ v. v.items ≡ map (λ k. value_of f.now (point_at widths.now k) +ℤ value_of g.now (point_at widths.now k)) (range_with_len 0 count)) }
{
    let mut cells = Vec::with_capacity(alloc, count)?;
    for k in 0..count {
        let a = value_in(f, widths, k);
        let b = value_in(g, widths, k);
        cells.push(sum_of(a, b))?;
    }
    Ok(cells)
}

/// The floored products at each point of some widths.
fn floored_products(
    alloc: Global,
    f: &Table,
    g: &Table,
    widths: &[u64],
    count: usize,
) -> Result<Vec<i128>, AllocError>
    requires count { count ≡ product widths.now }
    requires f { AreWidths f.now.shape widths.now }
    requires g { AreWidths g.now.shape widths.now }
    requires small_f { Everywhere f.now (λ v. unsigned_abs v ≤ 2 ^ 62) }
    requires small_g { Everywhere g.now (λ v. unsigned_abs v ≤ 2 ^ 62) }
    ensures { IfOk result (λ v. v.items ≡ map (λ k. floor_div (value_of f.now (point_at widths.now k) *ℤ value_of g.now (point_at widths.now k)) ticks) (range_with_len 0 count)) }
{
    let mut cells = Vec::with_capacity(alloc, count)?;
    for k in 0..count {
        let a = value_in(f, widths, k);
        let b = value_in(g, widths, k);
        cells.push(floor_of(product_of(a, b)))?;
    }
    Ok(cells)
}

/// The multiples of all cells.
fn multiples(alloc: Global, cells: &[i128], k: i128) -> Result<Vec<i128>, AllocError>
    requires { (i : ℕ) → i < length cells.now → unsigned_abs (k *ℤ slice_index_or cells.now i (pos 0)) ≤ 2 ^ 126 }
    ensures { IfOk result (λ v. v.items ≡ map (λ v. k *ℤ v) cells.now) }
{
    let mut scaled = Vec::with_capacity(alloc, cells.len())?;
    for cell in cells {
        scaled.push(multiple_of(k, *cell))?;
    }
    Ok(scaled)
}

/// The larger of each cell and a number.
fn maxima(alloc: Global, cells: &[i128], least: i128) -> Result<Vec<i128>, AllocError>
    ensures { IfOk result (λ v. v.items ≡ map (λ v. int_max v least) cells.now) }
{
    cells.iter().map(|cell| (*cell).max(least)).collect(alloc)
}
