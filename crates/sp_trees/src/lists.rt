//! Sums and products.

ghost use Rattle.std.specs.Prelude.{◌≡◌, None, All, IfOk};
ghost use Rattle.sp_trees.specs.Good.{IfGood};
ghost use Rattle.sp_trees.specs.Lists as spec;

use crate::conditions::is_within;
use crate::env::Shared;
use crate::judged::{Judged, inside, mentioned};
use crate::refusal::{ModelKind, Refusal};
use sp_dd::{NoMemory, Scope, TICKS};
use sp_model::Func;
use sp_model::functions::{add, constant, mul_whole};
use std::alloc::Global;

/// What a list of trees does with their values.
#[derive(Clone, Copy, Debug, Drop, PartialEq, Eq)]
pub enum Op {
    Sum,
    Product,
}

/// The greatest magnitude of a partial result, in ticks.
const MOST: u64 = 1_000_000_000_000_000_000;

/// A partial result, unless it is too large.
fn checked(func: Func) -> Result<Func, ModelKind>
    ensures { result ≡ spec.partial_within_limit func }
{
    if is_within(MOST, &func) {
        Ok(func)
    } else {
        Err(ModelKind::TooLarge)
    }
}

/// The next partial result.
#[tactic(auto, using(crate::proofs::ListLemmas::product_some, crate::proofs::ListLemmas::product_none))]
fn combined(alloc: Global, op: Op, f: &Func, g: &Func) -> Result<Result<Func, ModelKind>, NoMemory>
    requires { spec.CanJoin f.now g.now }
    ensures { IfOk result (λ r. r ≡ spec.result_of_operation op f.now g.now) }
{
    let _ = f.scope();
    match op {
        Op::Sum => Ok(checked(add(alloc, f, g)?)),
        Op::Product => match mul_whole(alloc, f, g)? {
            Some(product) => Ok(checked(product)),
            None => Ok(Err(ModelKind::TooFine)),
        },
    }
}

/// The next partial result with the refusal's place.
fn joined(
    alloc: Global,
    op: Op,
    at: u64,
    f: &Shared,
    g: &Shared,
) -> Result<Result<Shared, Refusal>, NoMemory>
    requires { spec.CanJoin f.now g.now }
    ensures { IfOk result (λ r. r ≡ spec.result_of_step op at f.now g.now) }
{
    match combined(alloc, op, f.func(), g.func())? {
        Ok(func) => Ok(Ok(Shared::new(alloc, func)?)),
        Err(kind) => Ok(Err(Refusal { at, kind })),
    }
}

/// The next tree added to, or multiplied with, what stands before it.
fn step(
    alloc: Global,
    op: Op,
    at: u64,
    so_far: &Option<Shared>,
    tree: &Judged,
) -> Result<Result<Shared, Refusal>, NoMemory>
    requires { spec.CanStep so_far.now tree.now.outcome }
    ensures { IfOk result (λ r. r ≡ spec.step op at so_far.now tree.now.outcome) }
{
    match &tree.outcome {
        Err(refusal) => Ok(Err(*refusal)),
        Ok(g) => match so_far {
            None => Ok(Ok(g.again()?)),
            Some(f) => joined(alloc, op, at, f, g),
        },
    }
}

/// The sum or the product of the trees, from left to right.
#[tactic(auto, using(crate::proofs::ListLemmas::turn_ok, crate::proofs::ListLemmas::turn_err, crate::proofs::ListLemmas::turns_over))]
fn total(
    alloc: Global,
    scope: &Scope,
    op: Op,
    at: u64,
    trees: &[Judged],
) -> Result<Result<Shared, Refusal>, NoMemory>
    requires good { All (IfGood scope.now) trees.now }
    ensures { IfOk result (λ r. r ≡ spec.or_neutral scope.now op (spec.steps op at None trees.now)) }
{
    let _ = scope.slots();
    let mut so_far = None;
    for tree in trees {
        match step(alloc, op, at, &so_far, tree)? {
            Ok(func) => so_far = Some(func),
            Err(refusal) => return Ok(Err(refusal)),
        }
    }
    match so_far {
        Some(func) => Ok(Ok(func)),
        None => Ok(Ok(Shared::new(alloc, constant(alloc, scope, neutral(op))?)?)),
    }
}

fn neutral(op: Op) -> i128
    ensures { result ≡ spec.neutral op }
{
    match op {
        Op::Sum => 0,
        Op::Product => TICKS,
    }
}

/// A sum or a product of judged trees.
pub(crate) fn list_of(
    alloc: Global,
    scope: &Scope,
    op: Op,
    at: u64,
    trees: &[Judged],
) -> Result<Judged, NoMemory>
    requires good { All (IfGood scope.now) trees.now }
    ensures { IfOk result (λ j. j ≡ spec.list_of scope.now op at trees.now) }
{
    let outcome = match inside(trees) {
        Some(refusal) => Err(refusal),
        None => total(alloc, scope, op, at, trees)?,
    };
    Ok(Judged {
        mentions: mentioned(trees),
        outcome,
    })
}
