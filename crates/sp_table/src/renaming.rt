//! Calls that rename the slots of state variables.

ghost use Rattle.std.specs.Prelude.{◌≡◌, ◌≤◌, ◌<◌, ◌+◌, ◌-◌, ◌*◌, ℕ, length, map, slice_index, slice_set, IfOk};
ghost use Rattle.std.specs.List.{range_with_len};
ghost use Rattle.sp_dd.specs.Points.{point_at};
ghost use Rattle.sp_dd.specs.Func.{IsIndependentOf, IsOnPrimed, IsOnUnprimed, value_of};
ghost use Rattle.sp_dd.specs.Operations.{exchange_of_slots, on_diagonal, IsPrimedSlot};
ghost use Rattle.sp_table.specs.Widths.{AreWidths, IsDiagonalFrame, without_each, exchange_each};

use crate::Table;
use crate::cells::{value_in, value_with};
use crate::frames::{own_widths, room, slot_widths};
use crate::places::digit_of;
use sp_dd::NoMemory;
use std::alloc::{AllocError, Global};

/// A function of unprimed state slots as that of the primed ones.
pub fn prime(alloc: Global, f: &Table) -> Result<Table, NoMemory>
    requires { IsOnUnprimed f.now }
    ensures { IfOk result (λ r. r ≡ exchange_of_slots f.now) }
{
    renamed(alloc, f, 1)
}

/// A function of primed state slots as that of the unprimed ones.
pub fn unprime(alloc: Global, f: &Table) -> Result<Table, NoMemory>
    requires { IsOnPrimed f.now }
    ensures { IfOk result (λ r. r ≡ exchange_of_slots f.now) }
{
    renamed(alloc, f, 0)
}

/// A function with a primed slot given the value of the unprimed one before it.
pub fn diagonal(alloc: Global, f: &Table, primed: u64) -> Result<Table, NoMemory>
    requires { IsPrimedSlot f.now.shape primed }
    ensures { IfOk result (λ r. r ≡ on_diagonal f.now primed) }
{
    let widths = diagonal_widths(alloc, f, primed)?;
    let to = widths.as_slice();
    let count = room(to)?;
    let cells = diagonal_values(alloc, f, to, count, primed as usize)?;
    Ok(Table {
        scope: f.scope,
        widths,
        cells,
    })
}

/// A function's own widths without a primed slot, and with the unprimed one before it.
fn diagonal_widths(alloc: Global, f: &Table, primed: u64) -> Result<Vec<u64>, AllocError>
    requires { IsPrimedSlot f.now.shape primed }
    ensures { IfOk result (λ v. IsDiagonalFrame f.now primed v.items) }
{
    let size = f.scope().size(primed - 1);
    let mut widths = slot_widths(alloc, f, primed)?;
    widths[(primed - 1) as usize] = size;
    Ok(widths)
}

/// The values with a primed slot at the value of the one before it, at each point of some widths.
fn diagonal_values(
    alloc: Global,
    f: &Table,
    widths: &[u64],
    count: usize,
    primed: usize,
) -> Result<Vec<i128>, AllocError>
    requires frame { IsDiagonalFrame f.now primed widths.now }
    requires fits { AreWidths f.now.shape widths.now }
    requires primed { 1 ≤ primed }
    ensures { IfOk result (λ c. c.items ≡ map (λ k. value_of f.now (slice_set (point_at widths.now k) primed (slice_index (point_at widths.now k) (primed - 1)))) (range_with_len 0 count)) }
{
    let mut cells = Vec::with_capacity(alloc, count)?;
    for k in 0..count {
        let value = digit_of(widths, k, primed - 1);
        cells.push(value_with(f, widths, k, primed, value))?;
    }
    Ok(cells)
}

/// A function with the two slots of each state variable exchanged, where it depends on one of them at most: not on the slots `2i + first`.
fn renamed(alloc: Global, f: &Table, first: usize) -> Result<Table, NoMemory>
    requires one { first ≤ 1 }
    requires free { (i : ℕ) → i < f.now.shape.variables → IsIndependentOf f.now (2 * i + first) }
    ensures { IfOk result (λ r. r ≡ exchange_of_slots f.now) }
{
    let variables = f.scope().variables() as usize;
    let mut widths = own_widths(alloc, f)?;
    drop_each(widths.as_mut_slice(), variables, first);
    let to = widths.as_slice();
    let count = room(to)?;
    let cells = values(alloc, f, to, count)?;
    exchange_pairs(widths.as_mut_slice(), variables);
    Ok(Table {
        scope: f.scope,
        widths,
        cells,
    })
}

/// Makes the widths of the slots `2i + first` 1.
fn drop_each(widths: &mut [u64], variables: usize, first: usize)
    requires one { first ≤ 1 }
    requires paired { 2 * variables ≤ length widths.old }
    ensures { widths.new ≡ without_each first variables widths.old }
{
    for i in 0..variables {
        widths[2 * i + first] = 1;
    }
}

/// Exchanges the widths of the two slots of each state variable.
fn exchange_pairs(widths: &mut [u64], variables: usize)
    requires paired { 2 * variables ≤ length widths.old }
    ensures { widths.new ≡ exchange_each variables widths.old }
{
    for i in 0..variables {
        let unprimed = widths[2 * i];
        widths[2 * i] = widths[2 * i + 1];
        widths[2 * i + 1] = unprimed;
    }
}

/// The values at each point of some widths.
fn values(alloc: Global, f: &Table, widths: &[u64], count: usize) -> Result<Vec<i128>, AllocError>
    requires { AreWidths f.now.shape widths.now }
    ensures { IfOk result (λ c. c.items ≡ map (λ k. value_of f.now (point_at widths.now k)) (range_with_len 0 count)) }
{
    let mut cells = Vec::with_capacity(alloc, count)?;
    for k in 0..count {
        cells.push(value_in(f, widths, k))?;
    }
    Ok(cells)
}
