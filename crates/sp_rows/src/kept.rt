//! Tables of variables that keep their value.

ghost use Rattle.std.specs.Prelude.{◌≡◌, ◌<◌, ◌+◌, ◌*◌, length, map, slice_index, IfOk, pos, if◌then◌else◌, ◌==◌};
ghost use Rattle.std.specs.List.{range_with_len};
ghost use Rattle.sp_dd.specs.Func.{size_of};
ghost use Rattle.sp_dd.specs.Operations.{leaf_chosen};
ghost use Rattle.sp_rows.specs.Tables as spec;

use sp_dd::{NoMemory, Scope, TICKS};
use sp_model::Func;
use sp_model::functions::{branch, leaf_by};
use std::alloc::Global;

/// One at a value, and zero at another.
fn leaf_at(value: u64, other: u64) -> i128
    ensures { result ≡ spec.leaf_at value other }
{
    if value == other { TICKS } else { 0 }
}

/// One at a value, and zero at the others.
#[tactic(auto, using(crate::proofs::KeptLemmas::one_more))]
fn leaves_at(alloc: Global, values: u64, value: u64) -> Result<Vec<i128>, NoMemory>
    ensures { IfOk result (λ leaves. leaves.items ≡ spec.leaves_at values value) }
{
    let mut leaves = Vec::new(alloc);
    for other in 0..values {
        leaves.push(leaf_at(value, other)).map_err(|_| NoMemory)?;
    }
    Ok(leaves)
}

/// The table that leads to a value.
fn table_to(alloc: Global, scope: &Scope, slot: u64, value: u64) -> Result<Func, NoMemory>
    requires { slot < length scope.now.sizes }
    ensures { IfOk result (λ f. f ≡ spec.table_to scope.now slot value) }
{
    let leaves = leaves_at(alloc, scope.size(slot), value)?;
    let made = leaf_by(alloc, scope, slot, leaves.as_slice())?;
    Ok(made)
}

/// For each value the table that leads to that value.
#[tactic(auto, using(crate::proofs::KeptLemmas::one_more))]
fn tables_to(alloc: Global, scope: &Scope, slot: u64) -> Result<Vec<Func>, NoMemory>
    requires { slot < length scope.now.sizes }
    ensures { IfOk result (λ tables. tables.items ≡ map (spec.table_to scope.now slot) (range_with_len 0 (size_of scope.now slot))) }
{
    let mut tables = Vec::new(alloc);
    for value in 0..scope.size(slot) {
        let table = table_to(alloc, scope, slot, value)?;
        tables.push(table).map_err(|_| NoMemory)?;
    }
    Ok(tables)
}

/// The table of a state variable that keeps its value.
#[tactic(auto, using(crate::proofs::KeptLemmas::identity_is, crate::proofs::KeptLemmas::has_pair, crate::proofs::KeptLemmas::tables_count, crate::proofs::KeptLemmas::tables_shapes))]
pub fn identity(alloc: Global, scope: &Scope, variable: u64) -> Result<Func, NoMemory>
    requires { variable < scope.now.variables }
    ensures { IfOk result (λ f. f ≡ spec.identity scope.now variable) }
{
    let _ = scope.slots();
    let tables = tables_to(alloc, scope, 2 * variable + 1)?;
    let made = branch(alloc, scope, 2 * variable, tables.as_slice())?;
    Ok(made)
}
