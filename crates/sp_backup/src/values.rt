//! The members' values at all states, for sums over few states.

ghost use Rattle.std.specs.Prelude.{◌≡◌, ◌<◌, ◌≤◌, ◌^◌, ◌++◌, ◌∷◌, [], ℕ, ◌≤ℤ◌, pos, length, slice_index_or, unsigned_abs, IfOk, IfSome, OnOk};
ghost use Rattle.sp_dd.specs.Func.{Everywhere, IsOnUnprimed};
ghost use Rattle.sp_dd.specs.Operations.{state_total, state_dot};
ghost use Rattle.sp_model.specs.Problem.{shape_of};
ghost use Rattle.sp_backup.specs.MemberTables.{AreMemberTables, AreTables, IsMemberTable, IsNothingOr, no_table};

use sp_dd::NoMemory;
use sp_model::functions::{dot, greatest, least};
use sp_model::{Func, Sequence};
use sp_states::{SupportList, ValueTable};
use sp_value::Edition;
use std::alloc::Global;

/// A member's vector, its values at all states where it has a table, and its least and its greatest value.
#[derive(Drop)]
pub(crate) struct MemberTable {
    pub vector: Func,
    pub table: Option<ValueTable>,
    pub low: i128,
    pub high: i128,
}

pub(crate) type MemberTables = Sequence<MemberTable>;

/// How many values the tables have at most, all together.
const VALUES: u64 = 1 << 22;

/// The tables of an edition's members, in their order. Those at the beginning that were made for the same vectors stay.
pub(crate) fn tables_for(
    alloc: Global,
    edition: &Edition,
    before: MemberTables,
) -> Result<MemberTables, NoMemory>
    requires { AreTables (shape_of edition.now.task.model) before }
    ensures { IfOk result (λ tables. AreMemberTables edition.now (length edition.now.members) tables) }
{
    let first = shared(edition, &before);
    let mut tables = before.into_vec();
    tables.truncate(first as usize);
    for place in first..edition.members().len() {
        let table = table_at(alloc, edition, place)?;
        push_table(&mut tables, table)?;
    }
    Ok(Sequence::from_vec(tables))
}

/// How many of the first members have the vectors of these tables.
fn shared(edition: &Edition, tables: &MemberTables) -> u64
    requires { AreTables (shape_of edition.now.task.model) tables.now }
    ensures tables { result ≤ length tables.now }
    ensures members { result ≤ length edition.now.members }
    ensures same { (k : ℕ) → k < result → IsMemberTable edition.now k (slice_index_or tables.now k no_table) }
{
    let members = edition.members();
    let count = members.len().min(tables.len());
    for place in 0..count {
        if !tables.at(place).vector.same(&members.at(place).vector) {
            return place;
        }
    }
    count
}

/// The table of the member at a place, with its values where there is room for them.
fn table_at(alloc: Global, edition: &Edition, place: u64) -> Result<MemberTable, NoMemory>
    requires { place < length edition.now.members }
    ensures { IfOk result (IsMemberTable edition.now place) }
{
    let vector = &edition.members().at(place).vector;
    let states = edition.task().model().state_count();
    let copy = vector.copied(alloc)?;
    let has_room = place.saturating_mul(states) < VALUES;
    let table = values_of(alloc, vector, has_room)?;
    Ok(MemberTable {
        vector: copy,
        table,
        low: least(vector),
        high: greatest(vector),
    })
}

/// The values of a vector at all states, where there is room for them and there are few states.
fn values_of(alloc: Global, vector: &Func, has_room: bool) -> Result<Option<ValueTable>, NoMemory>
    requires unprimed { IsOnUnprimed vector.now }
    requires small { Everywhere vector.now (λ v. unsigned_abs v ≤ 2 ^ 62) }
    ensures { IfOk result (λ t. IsNothingOr t vector.now) }
{
    if !has_room {
        return Ok(None);
    }
    let table = ValueTable::new(alloc, vector)?;
    Ok(table)
}

/// Appends a table.
fn push_table(tables: &mut Vec<MemberTable>, table: MemberTable) -> Result<(), NoMemory>
    ensures { OnOk result (tables.new.items ≡ tables.old.items ++ table ∷ []) }
{
    tables.push(table).map_err(|_| NoMemory)?;
    Ok(())
}

/// The sum of weights times a member's values over all states: over the states of weight where both are listed.
pub(crate) fn listed_dot(
    alloc: Global,
    weights: &Func,
    list: &Option<SupportList>,
    member: &MemberTable,
) -> Result<i128, NoMemory>
    requires scopes { weights.now.shape ≡ member.now.vector.shape }
    requires list { IfSome list.now (λ l. l ≡ weights.now) }
    requires table { IfSome member.now.table (λ t. t ≡ member.now.vector) }
    requires unprimed_w { IsOnUnprimed weights.now }
    requires unprimed_f { IsOnUnprimed member.now.vector }
    requires not_negative { Everywhere weights.now (λ v. pos 0 ≤ℤ v) }
    requires total { state_total weights.now ≤ℤ pos (2 ^ 62) }
    requires small { Everywhere member.now.vector (λ v. unsigned_abs v ≤ 2 ^ 62) }
    ensures { IfOk result (λ z. z ≡ state_dot weights.now member.now.vector) }
{
    if let Some(list) = list {
        if let Some(table) = &member.table {
            return Ok(sp_states::dot(list, table));
        }
    }
    dot(alloc, weights, &member.vector)
}
