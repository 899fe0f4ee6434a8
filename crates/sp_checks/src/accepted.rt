//! Trees that aren't refused, and tables of probabilities.

ghost use Rattle.std.specs.Prelude.{◌≡◌, ◌<◌, ◌≤◌, true, length, IfOk};
ghost use Rattle.sp_dd.specs.Func.{size_of};
ghost use Rattle.sp_trees.specs.Good.{IsEnv, IsGood};
ghost use Rattle.sp_trees.specs.Slots.{is_among};
ghost use Rattle.sp_declarations.specs.Steps.{GivesOrRunsOut};
ghost use Rattle.sp_checks.specs.Kept.{IsFitEnv, IsTableOf};
ghost use Rattle.sp_checks.specs.Roles.{IsSmallRole};
ghost use Rattle.sp_checks.specs.Accepted as spec;

use crate::roles::{Role, allowed, start_of};
use sp_dd::NoMemory;
use sp_declarations::{ModelError, refuse};
use sp_model::Func;
use sp_rows::{BadRow, Table, bad_row, is_probability};
use sp_syntax::Tree;
use sp_trees::{Env, Judged, ModelKind, Refusal, Shared, Slots, judge};
use std::alloc::Global;

/// What a tree mentions, and its function.
#[derive(Drop)]
pub struct Accepted {
    pub mentions: Slots,
    pub func: Shared,
}

/// What a tree means in a role, unless it is refused.
#[tactic(auto, using(crate::proofs::AcceptedLemmas::accepted_is, crate::proofs::AcceptedLemmas::accepted_not))]
pub(crate) fn accept(
    alloc: Global,
    env: &Env<'_>,
    source: &[u8],
    role: Role,
    tree: &Tree,
) -> Result<Accepted, ModelError>
    requires env { IsEnv env.now }
    requires role { IsSmallRole role }
    ensures value { GivesOrRunsOut (spec.accepted env.now source.now role tree.now) result }
    ensures good { IfOk result (λ a. IsGood env.now.scope a.mentions a.func) }
{
    let Judged { mentions, outcome } = judge(alloc, env, allowed(&env.scope, role), source, tree)?;
    match outcome {
        Ok(func) => Ok(Accepted { mentions, func }),
        Err(refusal) => Err(ModelError::Fault {
            at: refusal.at,
            kind: refusal.kind,
        }),
    }
}

/// The number of a table's variable, with the observation variables behind the state variables.
fn variable_number(variables: u64, table: Table) -> u64
    requires { spec.variable_number variables table ≤ 64 }
    ensures { result ≡ spec.variable_number variables table }
{
    match table {
        Table::Move(variable) => variable,
        Table::Sight(sight) => variables + sight,
    }
}

/// What refuses a table by its rows.
fn row_refusal(
    variables: u64,
    action: u64,
    table: Table,
    at: u64,
    found: Option<BadRow>,
) -> Option<Refusal>
    requires { spec.variable_number variables table ≤ 64 }
    ensures { result ≡ spec.row_refusal variables action table at found }
{
    match found {
        None => None,
        Some(bad) => Some(Refusal {
            at,
            kind: ModelKind::RowSum {
                action,
                variable: variable_number(variables, table),
                row: bad.row,
                sum: bad.sum,
            },
        }),
    }
}

/// What refuses a table by its values.
#[tactic(auto, using(crate::proofs::TableLemmas::table_number), unfolding(crate::specs::Accepted::table_refusal))]
fn table_refusal(
    alloc: Global,
    env: &Env<'_>,
    action: u64,
    table: Table,
    at: u64,
    func: &Func,
) -> Result<Option<Refusal>, NoMemory>
    requires env { IsFitEnv env.now }
    requires table { IsTableOf env.now table }
    requires shape { func.now.shape ≡ env.now.scope }
    ensures { IfOk result (λ r. r ≡ spec.table_refusal env.now.scope.variables action table at func.now) }
{
    if is_probability(func) {
        let found = bad_row(alloc, func, table)?;
        Ok(row_refusal(env.scope.variables(), action, table, at, found))
    } else {
        Ok(Some(Refusal {
            at,
            kind: ModelKind::BadProbability,
        }))
    }
}

/// Whether a function may be a table of an action.
fn check_table(
    alloc: Global,
    env: &Env<'_>,
    action: u64,
    table: Table,
    at: u64,
    func: &Func,
) -> Result<(), ModelError>
    requires env { IsFitEnv env.now }
    requires table { IsTableOf env.now table }
    requires shape { func.now.shape ≡ env.now.scope }
    ensures { GivesOrRunsOut (spec.checked_table env.now.scope.variables action table at func.now) result }
{
    let refused = table_refusal(alloc, env, action, table, at, func)?;
    refuse(refused)
}

/// The table of a tree of an action.
#[tactic(auto, using(crate::proofs::AcceptedLemmas::accepted_err, crate::proofs::AcceptedLemmas::table_err, crate::proofs::AcceptedLemmas::table_ok, crate::proofs::TableLemmas::table_role))]
pub(crate) fn table_of(
    alloc: Global,
    env: &Env<'_>,
    source: &[u8],
    action: u64,
    table: Table,
    tree: &Tree,
) -> Result<Shared, ModelError>
    requires env { IsFitEnv env.now }
    requires table { IsTableOf env.now table }
    ensures { GivesOrRunsOut (spec.table_of env.now source.now action table tree.now) result }
{
    let accepted = accept(alloc, env, source, Role::Table(table), tree)?;
    check_table(
        alloc,
        env,
        action,
        table,
        start_of(tree),
        accepted.func.func(),
    )?;
    Ok(accepted.func)
}
