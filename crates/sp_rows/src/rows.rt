//! Sums of rows.

ghost use Rattle.std.specs.Prelude.{◌≡◌, ◌<◌, ◌≤◌, ◌^◌, ◌*◌, length, pos, true, unsigned_abs, IfOk, IfSome, All, slice_index, if◌then◌else◌};
ghost use Rattle.sp_dd.specs.Floors.{ticks};
ghost use Rattle.sp_dd.specs.Points.{IsPoint, place, product};
ghost use Rattle.sp_dd.specs.Func.{Everywhere, IsPointOf, size_of};
ghost use Rattle.sp_model.specs.Kept.{summed_out_own};
ghost use Rattle.sp_rows.specs.Tables as spec;
ghost use Rattle.sp_rows.specs.Tables.{row_widths, own_count};

use crate::tables::{BadRow, Table};
use sp_dd::{Ids, NoMemory, Scope, TICKS};
use sp_model::Func;
use sp_model::functions::sum_out;
use std::alloc::Global;

/// The first point in slot order at which the function isn't one.
#[tactic(auto, using(crate::proofs::LeafLemmas::apart_inside))]
fn first_apart(alloc: Global, f: &Func) -> Result<Option<Ids>, NoMemory>
    ensures value { IfOk result (λ point. point ≡ spec.first_apart f.now (pos ticks)) }
    ensures inside { IfOk result (λ point. IfSome point (λ x. IsPointOf f.now x)) }
{
    let _ = f.scope();
    let found = sp_model::functions::first_apart(alloc, f, TICKS)?;
    Ok(found)
}

/// The slot over which the rows of a table sum to one.
fn slot_of(variables: u64, table: Table) -> u64
    requires { spec.slot_of variables table < 2 ^ 32 }
    ensures { result ≡ spec.slot_of variables table }
{
    match table {
        Table::Move(variable) => 2 * variable + 1,
        Table::Sight(variable) => 2 * variables + variable,
    }
}

/// Whether a slot numbers the rows of a table.
fn numbers_rows(variables: u64, table: Table, slot: u64) -> bool
    requires variables { variables ≤ 28 }
    requires table { spec.slot_of variables table < 2 ^ 32 }
    ensures { result ≡ spec.numbers_rows variables table slot }
{
    match table {
        Table::Move(variable) => {
            slot < 2 * variables && (slot % 2 == 0 || slot < 2 * variable + 1)
        }
        Table::Sight(_) => slot < 2 * variables && slot % 2 == 1,
    }
}

/// The number of values of a slot that numbers the rows of a table, and 1 of another.
fn row_width(scope: &Scope, table: Table, slot: u64) -> u64
    requires slot { slot < length scope.now.sizes }
    requires table { spec.slot_of scope.now.variables table < 2 ^ 32 }
    ensures { result ≡ (if spec.numbers_rows scope.now.variables table slot then size_of scope.now slot else 1) }
{
    let _ = scope.slots();
    if numbers_rows(scope.variables(), table, slot) {
        scope.size(slot)
    } else {
        1
    }
}

/// The number of a point's row in a table, with the last slot fastest.
#[tactic(auto, using(crate::proofs::RowLemmas::numbered_first, crate::proofs::RowLemmas::numbered_more, crate::proofs::RowLemmas::has_room))]
fn row_number(scope: &Scope, table: Table, point: &[u64]) -> u64
    requires point { IsPoint scope.now.sizes point.now }
    requires table { spec.slot_of scope.now.variables table < 2 ^ 32 }
    requires few { product (row_widths scope.now table) ≤ 2 ^ 48 }
    ensures { result ≡ place (row_widths scope.now table) point.now }
{
    let mut row = 0;
    let mut weight = 1;
    let mut slot = scope.slots();
    while slot > 0 {
        slot -= 1;
        let width = row_width(scope, table, slot);
        row += point[slot as usize] % width * weight;
        weight *= width;
    }
    row
}

/// The row of a point, with its sum.
fn row_at(scope: &Scope, table: Table, sums: &Func, point: &[u64]) -> BadRow
    requires scope { scope.now ≡ sums.now.shape }
    requires point { IsPoint scope.now.sizes point.now }
    requires table { spec.slot_of scope.now.variables table < 2 ^ 32 }
    requires few { product (row_widths scope.now table) ≤ 2 ^ 48 }
    ensures { result ≡ spec.row_at scope.now table sums.now point.now }
{
    BadRow {
        row: row_number(scope, table, point),
        sum: sums.value_at(point),
    }
}

/// The first row in slot order that doesn't sum to one.
#[tactic(auto, using(crate::proofs::RowLemmas::share_sum, crate::proofs::RowLemmas::row_found, crate::proofs::RowLemmas::no_row))]
pub fn bad_row(alloc: Global, f: &Func, table: Table) -> Result<Option<BadRow>, NoMemory>
    requires slot { spec.slot_of f.now.shape.variables table < length f.now.shape.sizes }
    requires probability { spec.is_probability f.now ≡ true }
    requires few { product (row_widths f.now.shape table) ≤ 2 ^ 48 }
    ensures { IfOk result (λ row. row ≡ spec.bad_row f.now table) }
{
    let scope = f.scope();
    let _ = scope.slots();
    let sums = sum_out(alloc, f, slot_of(scope.variables(), table))?;
    match first_apart(alloc, &sums)? {
        None => Ok(None),
        Some(point) => Ok(Some(row_at(scope, table, &sums, point.as_slice()))),
    }
}

/// The sums over the unprimed slots of these variables.
#[tactic(auto, using(crate::proofs::RowLemmas::summed_first))]
fn sum_out_own(alloc: Global, f: &Func, own: &[u64]) -> Result<Func, NoMemory>
    requires own { All (λ i. i < f.now.shape.variables) own.now }
    requires probability { spec.is_probability f.now ≡ true }
    requires few { own_count f.now.shape own.now ≤ 2 ^ 24 }
    ensures { IfOk result (λ sums. sums ≡ summed_out_own f.now own.now) }
{
    let _ = f.scope();
    let mut sums = f.copied(alloc)?;
    let mut place = own.len();
    while place > 0 {
        place -= 1;
        sums = sum_out(alloc, &sums, 2 * own[place])?;
    }
    Ok(sums)
}

/// The sum over the own variables of a factor, where it isn't one.
pub fn bad_sum(alloc: Global, f: &Func, own: &[u64]) -> Result<Option<i128>, NoMemory>
    requires own { All (λ i. i < f.now.shape.variables) own.now }
    requires probability { spec.is_probability f.now ≡ true }
    requires few { own_count f.now.shape own.now ≤ 2 ^ 24 }
    ensures { IfOk result (λ sum. sum ≡ spec.bad_sum f.now own.now) }
{
    let sums = sum_out_own(alloc, f, own)?;
    match first_apart(alloc, &sums)? {
        None => Ok(None),
        Some(point) => Ok(Some(sums.value_at(point.as_slice()))),
    }
}
