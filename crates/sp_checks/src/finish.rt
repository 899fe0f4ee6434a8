//! The end of a text.

ghost use Rattle.std.specs.Prelude.{◌≡◌, IfOk, IfSome, All};
ghost use Rattle.sp_dd.specs.Func.{IsScope};
ghost use Rattle.sp_trees.specs.Good.{IsFit};
ghost use Rattle.sp_checks.specs.Kept.{IsReadingState};
ghost use Rattle.sp_declarations.specs.Steps.{GivesOrRunsOut, Leaves};
ghost use Rattle.sp_checks.specs.Finish as spec;

use crate::state::{Draft, State};
use sp_dd::{NoMemory, Scope};
use sp_declarations::{ModelError, refuse};
use sp_model::functions::constant;
use sp_model::{ActionPart, Actions, Factors, Func, Funcs, Name, Parts};
use sp_rows::{is_reward, less};
use sp_trees::{Env, ModelKind, Shared, refused_if};
use std::alloc::Global;

/// The function, or zero where there is none.
fn or_zero(alloc: Global, scope: &Scope, func: &Option<Shared>) -> Result<Shared, NoMemory>
    ensures { IfOk result (λ f. f ≡ spec.or_zero scope.now func.now) }
{
    match func {
        Some(func) => func.again(),
        None => {
            let zero = constant(alloc, scope, 0)?;
            Shared::new(alloc, zero)
        }
    }
}

/// The same functions once more.
fn copied(alloc: Global, funcs: &[Func]) -> Result<Funcs, NoMemory>
    ensures { IfOk result (λ fs. fs ≡ funcs.now) }
{
    let mut copies = Funcs::new(alloc);
    for func in funcs {
        let copy = func.copied(alloc)?;
        copies.push(copy)?;
    }
    Ok(copies)
}

/// The reward of an action less its cost, which is within a million.
#[tactic(auto, using(crate::proofs::FinishLemmas::range_err, crate::proofs::FinishLemmas::reward_ok))]
fn reward_of(
    alloc: Global,
    scope: &Scope,
    end: u64,
    reward: &Shared,
    draft: &Draft,
) -> Result<Func, ModelError>
    requires reward { IsFit scope.now reward.now }
    requires cost { IfSome draft.now.cost (IsFit scope.now) }
    requires scope { IsScope scope.now }
    ensures { GivesOrRunsOut (spec.checked_reward scope.now end reward.now draft.now) result }
{
    let cost = or_zero(alloc, scope, &draft.cost)?;
    let made = less(alloc, reward.func(), cost.func())?;
    refuse(refused_if(!is_reward(&made), end, ModelKind::RewardRange))?;
    Ok(made)
}

/// An action with its reward.
#[tactic(auto, using(crate::proofs::FinishLemmas::part_err, crate::proofs::FinishLemmas::part_ok))]
fn action_part(
    alloc: Global,
    scope: &Scope,
    end: u64,
    reward: &Shared,
    draft: &Draft,
) -> Result<ActionPart, ModelError>
    requires reward { IsFit scope.now reward.now }
    requires cost { IfSome draft.now.cost (IsFit scope.now) }
    requires scope { IsScope scope.now }
    ensures { GivesOrRunsOut (spec.action_part scope.now end reward.now draft.now) result }
{
    let reward = reward_of(alloc, scope, end, reward, draft)?;
    let name = Name::new(alloc, draft.name.bytes())?;
    let moves = copied(alloc, draft.moves.as_slice())?;
    let sight = copied(alloc, draft.sights.as_slice())?;
    Ok(ActionPart {
        name,
        reward,
        moves,
        sight,
    })
}

/// The actions with one more.
#[tactic(auto, using(crate::proofs::FinishLemmas::step_err, crate::proofs::FinishLemmas::step_ok))]
fn action_step(
    alloc: Global,
    scope: &Scope,
    end: u64,
    reward: &Shared,
    actions: &mut Actions,
    draft: &Draft,
) -> Result<(), ModelError>
    requires reward { IsFit scope.now reward.now }
    requires cost { IfSome draft.now.cost (IsFit scope.now) }
    requires scope { IsScope scope.now }
    ensures { Leaves (spec.action_step scope.now end reward.now actions.old draft.now) result actions.new }
{
    let next = action_part(alloc, scope, end, reward, draft)?;
    actions.push(next)?;
    Ok(())
}

/// The actions with their rewards.
#[tactic(auto, using(sp_declarations::proofs::StepLemmas::turn_ok, sp_declarations::proofs::StepLemmas::turn_err, sp_declarations::proofs::StepLemmas::turns_over), unfolding(crate::specs::Finish::actions))]
fn actions(
    alloc: Global,
    scope: &Scope,
    end: u64,
    reward: &Shared,
    drafts: &[Draft],
) -> Result<Actions, ModelError>
    requires reward { IsFit scope.now reward.now }
    requires costs { All (λ d. IfSome d.cost (IsFit scope.now)) drafts.now }
    requires scope { IsScope scope.now }
    ensures { GivesOrRunsOut (spec.actions scope.now end reward.now drafts.now) result }
{
    let mut actions = Actions::new(alloc);
    for draft in drafts {
        action_step(alloc, scope, end, reward, &mut actions, draft)?;
    }
    Ok(actions)
}

/// The parts of the model from those that were read.
#[tactic(auto, using(crate::proofs::FinishLemmas::parts_err, crate::proofs::FinishLemmas::parts_ok))]
fn parts(
    alloc: Global,
    end: u64,
    env: Env<'_>,
    init: Factors,
    discount: u64,
    reward: &Option<Shared>,
    drafts: &[Draft],
) -> Result<Parts, ModelError>
    requires reward { IfSome reward.now (IsFit env.scope) }
    requires costs { All (λ d. IfSome d.cost (IsFit env.scope)) drafts.now }
    requires scope { IsScope env.scope }
    ensures { GivesOrRunsOut (spec.parts env.entry end init discount reward.now drafts.now) result }
{
    let reward = or_zero(alloc, &env.scope, reward)?;
    let actions = actions(alloc, &env.scope, end, &reward, drafts)?;
    Ok(Parts {
        variables: env.variables,
        sights: env.sights,
        scope: env.scope,
        discount,
        init,
        actions,
    })
}

/// The parts of the model, unless something is missing or a reward is too large.
#[tactic(auto, unfolding(crate::specs::Finish::finish))]
pub(crate) fn finish(alloc: Global, end: u64, state: State<'_>) -> Result<Parts, ModelError>
    requires { IsReadingState state }
    ensures { GivesOrRunsOut (spec.finish state.entry end) result }
{
    let missing = ModelError::Fault {
        at: end,
        kind: ModelKind::MissingPart,
    };
    let State {
        env,
        actions: drafts,
        init,
        reward,
        discount,
        names: _,
    } = state;
    let init = match init {
        Some(init) => init,
        None => return Err(missing),
    };
    let discount = match discount {
        Some(discount) => discount,
        None => return Err(missing),
    };
    if drafts.len() == 0 {
        return Err(missing);
    }
    parts(alloc, end, env, init, discount, &reward, drafts.as_slice())
}
