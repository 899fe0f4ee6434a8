//! Actions.

ghost use Rattle.std.specs.Prelude.{◌≡◌, ◌≤◌, ◌<◌, ◌+◌, ◌++◌, [], ◌∷◌, length, IfOk, OnOk};
ghost use Rattle.sp_names.specs.Names.{with_name};
ghost use Rattle.sp_trees.specs.Words.{text};
ghost use Rattle.sp_declarations.specs.Steps.{GivesOrRunsOut, Leaves};
ghost use Rattle.sp_checks.specs.Kept.{IsFitEnv};
ghost use Rattle.sp_checks.specs.Actions as spec;

use crate::items::{Listed, items};
use crate::state::{Draft, State};
use sp_dd::{NoMemory, Scope};
use sp_declarations::{ModelError, refuse};
use sp_lex::Span;
use sp_model::{Func, Funcs, Name};
use sp_names::Names;
use sp_rows::identity;
use sp_syntax::Item;
use sp_trees::{Env, ModelKind, Refusal, Shared, refused_if, text};
use std::alloc::Global;

/// The most actions.
const MOST_ACTIONS: u64 = 256;

/// The table of an item, or the table of a variable that keeps its value.
fn or_identity(
    alloc: Global,
    scope: &Scope,
    variable: u64,
    table: &Option<Shared>,
) -> Result<Func, NoMemory>
    requires { variable < scope.now.variables }
    ensures { IfOk result (λ f. f ≡ spec.or_identity scope.now variable table.now) }
{
    match table {
        Some(table) => table.func().copied(alloc),
        None => identity(alloc, scope, variable),
    }
}

/// A table for each state variable.
#[tactic(auto, using(sp_rows::proofs::KeptLemmas::one_more))]
fn moves_of(alloc: Global, scope: &Scope, tables: &[Option<Shared>]) -> Result<Funcs, NoMemory>
    requires { length tables.now ≡ scope.now.variables }
    ensures { IfOk result (λ fs. fs ≡ spec.moves_of scope.now tables.now) }
{
    let mut moves = Funcs::new(alloc);
    for variable in 0..tables.len() {
        let next = or_identity(alloc, scope, variable as u64, &tables[variable])?;
        moves.push(next)?;
    }
    Ok(moves)
}

/// The tables of observation variables with one more.
fn sight_step(
    alloc: Global,
    at: u64,
    sights: &mut Funcs,
    table: &Option<Shared>,
) -> Result<(), ModelError>
    ensures { Leaves (spec.sight_step at sights.old table.now) result sights.new }
{
    match table {
        Some(table) => {
            let next = table.func().copied(alloc)?;
            sights.push(next)?;
            Ok(())
        }
        None => Err(ModelError::Fault {
            at,
            kind: ModelKind::MissingPart,
        }),
    }
}

/// A table for each observation variable.
#[tactic(auto, using(sp_declarations::proofs::StepLemmas::turn_ok, sp_declarations::proofs::StepLemmas::turn_err, sp_declarations::proofs::StepLemmas::turns_over), unfolding(crate::specs::Actions::sights_of))]
fn sights_of(alloc: Global, at: u64, tables: &[Option<Shared>]) -> Result<Funcs, ModelError>
    ensures { GivesOrRunsOut (spec.sights_of at tables.now) result }
{
    let mut sights = Funcs::new(alloc);
    for table in tables {
        sight_step(alloc, at, &mut sights, table)?;
    }
    Ok(sights)
}

/// What refuses an action by its name.
fn name_refusal(is_new: bool, count: u64, at: u64) -> Option<Refusal>
    ensures { result ≡ spec.name_refusal_by is_new count at }
{
    if is_new {
        refused_if(
            count == MOST_ACTIONS,
            at,
            ModelKind::TooMany {
                limit: MOST_ACTIONS,
            },
        )
    } else {
        Some(Refusal {
            at,
            kind: ModelKind::RepeatedName,
        })
    }
}

/// Puts the name of an action behind those before it.
fn declare<'a>(
    names: &mut Names<'a>,
    count: u64,
    source: &'a [u8],
    word: Span,
) -> Result<(), ModelError>
    ensures refused { GivesOrRunsOut (spec.checked_name source.now names.old count word) result }
    ensures names { OnOk result (names.new ≡ with_name names.old (text source.now word)) }
{
    let is_new = names.declare(text(source, word))?;
    refuse(name_refusal(is_new, count, word.start))
}

/// An action's name and its tables.
#[tactic(auto, using(crate::proofs::ActionLemmas::sights_err, crate::proofs::ActionLemmas::draft_of_ok))]
fn draft_of(
    alloc: Global,
    env: &Env<'_>,
    source: &[u8],
    word: Span,
    end: u64,
    listed: Listed,
) -> Result<Draft, ModelError>
    requires { length listed.moves ≡ env.now.scope.variables }
    ensures { GivesOrRunsOut (spec.draft_of env.now source.now word end listed) result }
{
    let sights = sights_of(alloc, end, listed.sights.as_slice())?;
    let moves = moves_of(alloc, &env.scope, listed.moves.as_slice())?;
    let name = Name::new(alloc, text(source, word))?;
    Ok(Draft {
        name,
        cost: listed.cost,
        moves,
        sights,
    })
}

/// An action's items, and its tables.
#[tactic(auto, using(crate::proofs::ActionLemmas::items_err, crate::proofs::ActionLemmas::draft_then))]
fn draft(
    alloc: Global,
    env: &Env<'_>,
    source: &[u8],
    action: u64,
    word: Span,
    list: &[Item],
    end: Span,
) -> Result<Draft, ModelError>
    requires { IsFitEnv env.now }
    ensures { GivesOrRunsOut (spec.draft env.now source.now action word list.now end) result }
{
    let listed = items(alloc, env, source, action, list)?;
    draft_of(alloc, env, source, word, end.start, listed)
}

/// The section of an action.
#[tactic(auto, using(crate::proofs::ActionLemmas::name_err, crate::proofs::ActionLemmas::draft_err, crate::proofs::ActionLemmas::action_ok))]
pub(crate) fn action<'a>(
    alloc: Global,
    source: &'a [u8],
    state: &mut State<'a>,
    word: Span,
    list: &[Item],
    end: Span,
) -> Result<(), ModelError>
    requires { IsFitEnv state.old.env }
    ensures { Leaves (spec.action source.now state.old word list.now end) result state.new }
{
    let count = state.actions.len();
    declare(&mut state.names, count, source, word)?;
    let next = draft(alloc, &state.env, source, count, word, list, end)?;
    state.actions.push(next)?;
    Ok(())
}
