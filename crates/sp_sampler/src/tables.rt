//! The tables of the actions that were chosen, each made when its action is chosen first.

ghost use Rattle.std.specs.Prelude.{◌≡◌, ◌<◌, ◌++◌, ◌∷◌, [], length, slice_index_or, None, IsSome, IfOk, OnOk};
ghost use Rattle.sp_sampler.specs.Tables.{AreKeptTables};

use sp_belief::ActionTables;
use sp_dd::NoMemory;
use sp_model::Model;
use std::alloc::Global;

/// For each action its tables, if it was chosen.
pub(crate) type KeptTables = Vec<Option<ActionTables>>;

/// No tables yet.
pub(crate) fn no_tables(alloc: Global, model: &Model) -> Result<KeptTables, NoMemory>
    ensures { IfOk result (λ kept. AreKeptTables model.now kept.items) }
{
    let mut kept = Vec::new(alloc);
    for _action in 0..model.action_count() {
        push_none(&mut kept)?;
    }
    Ok(kept)
}

/// Room for one more action.
fn push_none(kept: &mut KeptTables) -> Result<(), NoMemory>
    ensures { OnOk result (kept.new.items ≡ kept.old.items ++ None ∷ []) }
{
    kept.push(None).map_err(|_| NoMemory)?;
    Ok(())
}

/// Makes the tables of an action where it wasn't chosen before.
pub(crate) fn prepare(
    alloc: Global,
    model: &Model,
    kept: &mut KeptTables,
    action: u64,
) -> Result<(), NoMemory>
    requires kept { AreKeptTables model.now kept.old.items }
    requires action { action < length model.now.actions }
    ensures kept { OnOk result (AreKeptTables model.now kept.new.items) }
    ensures there { OnOk result (IsSome (slice_index_or kept.new.items action None)) }
{
    if kept[action as usize].is_none() {
        let tables = ActionTables::new(alloc, model, action)?;
        kept[action as usize] = Some(tables);
    }
    Ok(())
}
