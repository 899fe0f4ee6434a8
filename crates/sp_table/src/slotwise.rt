//! Calls that take one slot out of a function.

ghost use Rattle.std.specs.Prelude.{◌≡◌, ◌≤◌, ◌<◌, ◌^◌, length, map, slice_set, unsigned_abs, IfOk};
ghost use Rattle.std.specs.List.{range_with_len};
ghost use Rattle.sp_dd.specs.Floors.{sum_to, ticks, floored_mean};
ghost use Rattle.sp_dd.specs.Points.{product, point_at};
ghost use Rattle.sp_dd.specs.Func.{Everywhere, size_of, value_of};
ghost use Rattle.sp_dd.specs.Operations.{summed_out, weighed_out, IsRow, restriction};
ghost use Rattle.sp_table.specs.Widths.{AreWidths};

use crate::Table;
use crate::arithmetic::{floor_of, product_of, sum_of};
use crate::cells::value_with;
use crate::frames::{room, slot_widths, slot_widths_of_two};
use sp_dd::NoMemory;
use std::alloc::{AllocError, Global};

/// The sum over a slot's values.
pub fn sum_out(alloc: Global, f: &Table, slot: u64) -> Result<Table, NoMemory>
    requires slot { slot < length f.now.shape.sizes }
    requires small { Everywhere f.now (λ v. unsigned_abs v ≤ 2 ^ 100) }
    ensures { IfOk result (λ r. r ≡ summed_out f.now slot) }
{
    let size = f.scope().size(slot) as usize;
    let widths = slot_widths(alloc, f, slot)?;
    let to = widths.as_slice();
    let count = room(to)?;
    let cells = slot_sums(alloc, f, to, count, slot as usize, size)?;
    Ok(Table {
        scope: f.scope,
        widths,
        cells,
    })
}

/// The floor of the mean over a slot's values, by the weights of `p` in ticks.
pub fn weigh_out(alloc: Global, f: &Table, slot: u64, p: &Table) -> Result<Table, NoMemory>
    requires scopes { f.now.shape ≡ p.now.shape }
    requires slot { slot < length f.now.shape.sizes }
    requires small { Everywhere f.now (λ v. unsigned_abs v ≤ 2 ^ 62) }
    requires row { IsRow p.now slot }
    ensures { IfOk result (λ r. r ≡ weighed_out f.now slot p.now) }
{
    let size = f.scope().size(slot) as usize;
    let widths = slot_widths_of_two(alloc, f, p, slot)?;
    let to = widths.as_slice();
    let count = room(to)?;
    let cells = slot_means(alloc, f, p, to, count, slot as usize, size)?;
    Ok(Table {
        scope: f.scope,
        widths,
        cells,
    })
}

/// A function with one slot at a value.
pub fn restrict(alloc: Global, f: &Table, slot: u64, value: u64) -> Result<Table, NoMemory>
    requires slot { slot < length f.now.shape.sizes }
    requires value { value < size_of f.now.shape slot }
    ensures { IfOk result (λ r. r ≡ restriction f.now slot value) }
{
    let widths = slot_widths(alloc, f, slot)?;
    let to = widths.as_slice();
    let count = room(to)?;
    let cells = slot_values(alloc, f, to, count, slot as usize, value as usize)?;
    Ok(Table {
        scope: f.scope,
        widths,
        cells,
    })
}

/// The sums over a slot's values at each point of some widths.
fn slot_sums(
    alloc: Global,
    f: &Table,
    widths: &[u64],
    count: usize,
    slot: usize,
    size: usize,
) -> Result<Vec<i128>, AllocError>
    requires f { AreWidths f.now.shape widths.now }
    requires size { size ≡ size_of f.now.shape slot }
    requires small { Everywhere f.now (λ v. unsigned_abs v ≤ 2 ^ 100) }
    ensures { IfOk result (λ c. c.items ≡ map (λ k. sum_to size (λ v. value_of f.now (slice_set (point_at widths.now k) slot v))) (range_with_len 0 count)) }
{
    let mut cells = Vec::with_capacity(alloc, count)?;
    for k in 0..count {
        cells.push(slot_sum(f, widths, k, slot, size))?;
    }
    Ok(cells)
}

/// The sum over a slot's values at one point.
fn slot_sum(f: &Table, widths: &[u64], k: usize, slot: usize, size: usize) -> i128
    requires f { AreWidths f.now.shape widths.now }
    requires size { size ≡ size_of f.now.shape slot }
    requires small { Everywhere f.now (λ v. unsigned_abs v ≤ 2 ^ 100) }
    ensures { result ≡ sum_to size (λ v. value_of f.now (slice_set (point_at widths.now k) slot v)) }
{
    let mut sum = 0i128;
    for v in 0..size {
        let value = value_with(f, widths, k, slot, v);
        sum = sum_of(sum, value);
    }
    sum
}

/// The weighed means over a slot's values at each point of some widths.
fn slot_means(
    alloc: Global,
    f: &Table,
    p: &Table,
    widths: &[u64],
    count: usize,
    slot: usize,
    size: usize,
) -> Result<Vec<i128>, AllocError>
    requires f { AreWidths f.now.shape widths.now }
    requires p { AreWidths p.now.shape widths.now }
    requires size { size ≡ size_of f.now.shape slot }
    requires size_p { size ≡ size_of p.now.shape slot }
    requires small { Everywhere f.now (λ v. unsigned_abs v ≤ 2 ^ 62) }
    requires weights { Everywhere p.now (λ v. unsigned_abs v ≤ ticks) }
    ensures { IfOk result (λ c. c.items ≡ map (λ k. floored_mean ticks size (λ v. value_of p.now (slice_set (point_at widths.now k) slot v)) (λ v. value_of f.now (slice_set (point_at widths.now k) slot v))) (range_with_len 0 count)) }
{
    let mut cells = Vec::with_capacity(alloc, count)?;
    for k in 0..count {
        cells.push(slot_mean(f, p, widths, k, slot, size))?;
    }
    Ok(cells)
}

/// The weighed mean over a slot's values at one point.
fn slot_mean(f: &Table, p: &Table, widths: &[u64], k: usize, slot: usize, size: usize) -> i128
    requires f { AreWidths f.now.shape widths.now }
    requires p { AreWidths p.now.shape widths.now }
    requires size { size ≡ size_of f.now.shape slot }
    requires size_p { size ≡ size_of p.now.shape slot }
    requires small { Everywhere f.now (λ v. unsigned_abs v ≤ 2 ^ 62) }
    requires weights { Everywhere p.now (λ v. unsigned_abs v ≤ ticks) }
    ensures { result ≡ floored_mean ticks size (λ v. value_of p.now (slice_set (point_at widths.now k) slot v)) (λ v. value_of f.now (slice_set (point_at widths.now k) slot v)) }
{
    let mut sum = 0i128;
    for v in 0..size {
        let weight = value_with(p, widths, k, slot, v);
        let value = value_with(f, widths, k, slot, v);
        let product = product_of(weight, value);
        sum = sum_of(sum, product);
    }
    floor_of(sum)
}

/// The values with one slot at a value, at each point of some widths.
fn slot_values(
    alloc: Global,
    f: &Table,
    widths: &[u64],
    count: usize,
    slot: usize,
    value: usize,
) -> Result<Vec<i128>, AllocError>
    requires f { AreWidths f.now.shape widths.now }
    requires value { value < size_of f.now.shape slot }
    ensures { IfOk result (λ c. c.items ≡ map (λ k. value_of f.now (slice_set (point_at widths.now k) slot value)) (range_with_len 0 count)) }
{
    let mut cells = Vec::with_capacity(alloc, count)?;
    for k in 0..count {
        cells.push(value_with(f, widths, k, slot, value))?;
    }
    Ok(cells)
}
