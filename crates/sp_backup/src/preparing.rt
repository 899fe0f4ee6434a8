//! What an action brings to all weights alike.

ghost use Rattle.std.specs.Prelude.{◌≡◌, ◌<◌, length, IfOk};
ghost use Rattle.sp_backup.specs.Preparing.{IsPrepared};

use crate::moving::weigh_next;
use crate::projections::Kept;
use sp_belief::ActionTables;
use sp_dd::NoMemory;
use sp_model::{Func, Model};
use std::alloc::Global;

/// The tables by which an action pushes weights, and its reward with the next state weighed out.
#[derive(Drop)]
pub(crate) struct PreparedAction {
    pub tables: ActionTables,
    pub reward: Func,
}

impl PreparedAction {
    /// What an action brings to all weights.
    pub fn new(alloc: Global, model: &Model, action: u64) -> Result<PreparedAction, NoMemory>
        requires { action < length model.now.actions }
        ensures is { IfOk result (IsPrepared model.now) }
        ensures action { IfOk result (λ x. x.tables.action ≡ action) }
    {
        let _ = model.parts();
        let tables = ActionTables::new(alloc, model, action)?;
        let given = model.reward(action).copied(alloc)?;
        let reward = weigh_next(alloc, model, action, given)?;
        Ok(PreparedAction { tables, reward })
    }
}

/// What an action brings to all weights, as it was kept or anew.
pub(crate) fn prepared_of(
    alloc: Global,
    kept: &mut Kept,
    model: &Model,
    action: u64,
) -> Result<PreparedAction, NoMemory>
    requires kept { kept.old ≡ model.now }
    requires action { action < length model.now.actions }
    ensures kept { kept.new ≡ kept.old }
    ensures is { IfOk result (IsPrepared model.now) }
    ensures action { IfOk result (λ x. x.tables.action ≡ action) }
{
    if let Some(found) = kept.take_prepared(action) {
        if found.tables.action == action {
            return Ok(found);
        }
    }
    PreparedAction::new(alloc, model, action)
}
