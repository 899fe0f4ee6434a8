//! The tables of an action that its lines name.

ghost use Rattle.std.specs.Prelude.{◌≡◌, ◌++◌, [], ◌∷◌, map, length, IfOk, OnOk};
ghost use Rattle.std.specs.List.{range_with_len};
ghost use Rattle.sp_dd.specs.Func.{IsScope};
ghost use Rattle.sp_rows.specs.Tables.{identity};
ghost use Rattle.sp_model.specs.Problem.{shape_of};
ghost use Rattle.sp_model.specs.Kept.{IsAction};
ghost use Rattle.sp_canonical.specs.Lent.{lent_table};
ghost use Rattle.sp_canonical.specs.ModelSigns.{moving_of, seen_of};

use sp_dd::{NoMemory, Scope};
use sp_model::{ActionPart, Func, Name, Parts};
use sp_rows::identity;
use std::alloc::Global;

/// A function under the name of its variable.
#[derive(Clone, Copy)]
pub struct NamedTable<'a> {
    pub name: &'a Name,
    pub table: &'a Func,
}

/// One more table.
fn add_table<'a>(tables: &mut Vec<NamedTable<'a>>, table: NamedTable<'a>) -> Result<(), NoMemory>
    ensures { OnOk result (tables.new.items ≡ tables.old.items ++ table.entry ∷ []) }
{
    tables.push(table).map_err(|_| NoMemory)?;
    Ok(())
}

/// For each variable the table by which it keeps its value.
#[tactic(auto, using(crate::proofs::TableLemmas::one_more))]
pub fn identities(alloc: Global, scope: &Scope) -> Result<Vec<Func>, NoMemory>
    ensures { IfOk result (λ tables. tables.items ≡ map (identity scope.now) (range_with_len 0 scope.now.variables)) }
{
    let mut tables = Vec::new(alloc);
    for variable in 0..scope.variables() {
        let table = identity(alloc, scope, variable)?;
        tables.push(table).map_err(|_| NoMemory)?;
    }
    Ok(tables)
}

/// The tables of an action that aren't the identity.
#[tactic(auto, using(crate::proofs::TableLemmas::moves_count, crate::proofs::TableLemmas::identity_count, crate::proofs::TableLemmas::move_shape, crate::proofs::TableLemmas::identity_at))]
pub fn moving_tables<'a>(
    alloc: Global,
    parts: &'a Parts,
    action: &'a ActionPart,
    identities: &[Func],
) -> Result<Vec<NamedTable<'a>>, NoMemory>
    requires action { IsAction (shape_of parts.now) action.now }
    requires identities { identities.now ≡ map (identity (shape_of parts.now)) (range_with_len 0 (length parts.now.variables)) }
    ensures { IfOk result (λ tables. map lent_table tables.items ≡ moving_of parts.now action.now) }
{
    let decls = parts.variables.as_slice();
    let moves = action.moves.as_slice();
    let mut tables = Vec::new(alloc);
    for i in 0..decls.len() {
        let table = &moves[i];
        if !table.same(&identities[i]) {
            let name = &decls[i].name;
            add_table(&mut tables, NamedTable { name, table })?;
        }
    }
    Ok(tables)
}

/// The tables of an action's observation variables.
#[tactic(auto, using(crate::proofs::TableLemmas::sight_count))]
pub fn seen_tables<'a>(
    alloc: Global,
    parts: &'a Parts,
    action: &'a ActionPart,
) -> Result<Vec<NamedTable<'a>>, NoMemory>
    requires { IsAction (shape_of parts.now) action.now }
    ensures { IfOk result (λ tables. map lent_table tables.items ≡ seen_of parts.now action.now) }
{
    let decls = parts.sights.as_slice();
    let sight = action.sight.as_slice();
    let mut tables = Vec::new(alloc);
    for i in 0..decls.len() {
        let table = &sight[i];
        let name = &decls[i].name;
        add_table(&mut tables, NamedTable { name, table })?;
    }
    Ok(tables)
}
