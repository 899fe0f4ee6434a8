//! Functions are determined by their values: their type keeps it, and here it is handed out for all functions of a model.

ghost use Rattle.std.specs.Prelude.{All};
ghost use Rattle.sp_dd.specs.Func.{IsFunc};
ghost use Rattle.sp_read_back.specs.ReadBack.{AreFuncs, HasFuncs};

use sp_model::{ActionPart, Factor, Func, Parts};

/// Each function of a model is determined by its values. Goes over the functions once and takes no memory.
pub fn functions_law(parts: &Parts)
    ensures { AreFuncs parts.now }
{
    factors_law(parts.init.as_slice());
    actions_law(parts.actions.as_slice());
}

/// The functions of factors.
fn factors_law(factors: &[Factor])
    ensures { All (λ f. IsFunc f.func) factors.now }
{
    for factor in factors {
        let _ = factor.func.scope();
    }
}

/// The functions of actions.
fn actions_law(actions: &[ActionPart])
    ensures { All HasFuncs actions.now }
{
    for action in actions {
        action_law(action);
    }
}

/// The functions of an action.
fn action_law(action: &ActionPart)
    ensures { HasFuncs action.now }
{
    tables_law(action.moves.as_slice());
    tables_law(action.sight.as_slice());
    let _ = action.reward.scope();
}

/// Some functions.
fn tables_law(tables: &[Func])
    ensures { All IsFunc tables.now }
{
    for table in tables {
        let _ = table.scope();
    }
}
