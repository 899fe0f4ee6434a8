//! The tables of an action as weights are pushed by them.

ghost use Rattle.std.specs.Prelude.{◌≡◌, ◌<◌, [], length, get_or, slice_index_or, IfOk};
ghost use Rattle.sp_model.specs.Problem.{no_func, sizes_of};
ghost use Rattle.sp_belief.specs.Tables.{AreActionTables, AreChances, AreChanceLists};

use crate::moving::last_tables;
use sp_dd::{Ids, NoMemory};
use sp_model::functions::restrict;
use sp_model::{Func, Funcs, Model, Sequence};
use std::alloc::Global;

pub(crate) type ChanceLists = Sequence<Funcs>;

/// What pushing any weights by an action needs of its tables: where each variable is summed out, and the probability of each value
/// of each observation variable.
#[derive(Drop)]
pub struct ActionTables {
    pub action: u64,
    /// For each variable the table at which it is summed out.
    pub(crate) last: Ids,
    /// For each observation variable its table at each of its values.
    pub(crate) chances: ChanceLists,
}

impl ActionTables {
    /// The tables of an action.
    pub fn new(alloc: Global, model: &Model, action: u64) -> Result<ActionTables, NoMemory>
        requires { action < length model.now.actions }
        ensures are { IfOk result (AreActionTables model.now) }
        ensures action { IfOk result (λ x. x.action ≡ action) }
    {
        let _ = model.parts();
        let last = last_tables(alloc, model, action)?;
        let mut chances = ChanceLists::new(alloc);
        for variable in 0..model.sight_count() {
            chances.push(chances_of(alloc, model, action, variable)?)?;
        }
        Ok(ActionTables {
            action,
            last,
            chances,
        })
    }

    /// The probability of a value of an observation variable.
    pub(crate) fn chance(&self, variable: u64, value: u64) -> &Func
        requires variable { variable < length self.now.chances }
        requires value { value < length (slice_index_or self.now.chances variable []) }
        ensures { result.now ≡ slice_index_or (slice_index_or self.now.chances variable []) value no_func }
    {
        self.chances.at(variable).at(value)
    }
}

/// The table of an observation variable at each of its values.
fn chances_of(alloc: Global, model: &Model, action: u64, variable: u64) -> Result<Funcs, NoMemory>
    requires action { action < length model.now.actions }
    requires variable { variable < length model.now.sights }
    ensures { IfOk result (AreChances model.now action variable (get_or (sizes_of model.now.sights) variable 0)) }
{
    let _ = model.parts();
    let slot = 2 * model.variable_count() + variable;
    let sight = model.sight(action, variable);
    let mut chances = Funcs::new(alloc);
    for value in 0..sight.scope().size(slot) {
        let chance = restrict(alloc, sight, slot, value)?;
        chances.push(chance)?;
    }
    Ok(chances)
}
