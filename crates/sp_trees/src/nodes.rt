//! Nodes.

ghost use Rattle.std.specs.Prelude.{◌≡◌, ℕ, ◌<◌, ◌≤◌, ◌&&◌, [], None, length, All, IfOk, IfSome};
ghost use Rattle.std.specs.Option.{option_copied};
ghost use Rattle.std.specs.List.{list_all, range_with_len};
ghost use Rattle.sp_trees.specs.Slots.{has};
ghost use Rattle.sp_dd.specs.Func.{size_of};
ghost use Rattle.sp_trees.specs.Good.{IfGood, IsEnv};
ghost use Rattle.sp_trees.specs.Nodes as spec;

use crate::env::{Env, Shared};
use crate::judged::{Judged, Listed, inside_branches, mentioned_in_branches};
use crate::refusal::{ModelKind, Refusal, lesser, refused_if};
use crate::slots::Slots;
use crate::words::is_named;
use sp_dd::{NoMemory, Scope};
use sp_model::functions::branch;
use sp_model::{Decl, Func, Funcs, Name};
use std::alloc::Global;

/// What the word of a node names.
#[derive(Clone, Copy, Debug, Drop, PartialEq, Eq)]
pub enum Place {
    /// The state variable of that number.
    Variable(u64),
    /// The observation variable of that number.
    Sight(u64),
}

/// Where a node stands, and what it branches on.
#[derive(Clone, Copy, Drop)]
pub struct Branching {
    /// The place of its bracket.
    pub left: u64,
    /// The place of its variable's word.
    pub at: u64,
    pub slot: u64,
    /// Whether a tree may mention this variable at all: an unprimed observation variable it may not.
    pub is_sayable: bool,
    /// How many values the slot has.
    pub count: u64,
}

fn place_of_decl(decls: &[Decl], name: &[u8]) -> Option<usize>
    ensures value { result ≡ spec.number_of_decl decls.now name.now }
    ensures within { IfSome result (λ k. k < length decls.now) }
{
    decls.iter().position(|decl| is_named(&decl.name, name))
}

fn number_of_decl(decls: &[Decl], name: &[u8]) -> Option<u64>
    ensures value { result ≡ spec.number_of_decl decls.now name.now }
    ensures within { IfSome result (λ k. k < length decls.now) }
{
    match place_of_decl(decls, name) {
        Some(place) => Some(place as u64),
        None => None,
    }
}

/// What a word names as a variable. Takes no memory.
pub fn place_of(env: &Env<'_>, name: &[u8]) -> Option<Place>
    ensures value { result ≡ spec.place_of env.now name.now }
    ensures within { IfSome result (spec.IsPlace env.now) }
{
    if let Some(variable) = number_of_decl(env.variables.as_slice(), name) {
        return Some(Place::Variable(variable));
    }
    let sight = number_of_decl(env.sights.as_slice(), name)?;
    Some(Place::Sight(sight))
}

/// The names of a variable's values.
pub(crate) fn values_of<'a>(env: &'a Env<'_>, place: Place) -> &'a [Name]
    requires { spec.IsPlace env.now place }
    ensures { result.now ≡ spec.values_of env.now place }
{
    match place {
        Place::Variable(variable) => env.variables.at(variable).values.as_slice(),
        Place::Sight(sight) => env.sights.at(sight).values.as_slice(),
    }
}

/// What a node branches on.
pub(crate) fn branching_on(
    env: &Env<'_>,
    is_primed: bool,
    place: Place,
    left: u64,
    at: u64,
) -> Branching
    requires env { IsEnv env.now }
    requires place { spec.IsPlace env.now place }
    ensures { result ≡ spec.branching_on env.now is_primed place left at }
{
    let count = values_of(env, place).len() as u64;
    match place {
        Place::Variable(variable) => Branching {
            left,
            at,
            slot: if is_primed {
                2 * variable + 1
            } else {
                2 * variable
            },
            is_sayable: true,
            count,
        },
        Place::Sight(sight) => Branching {
            left,
            at,
            slot: 2 * env.variables.len() + sight,
            is_sayable: is_primed,
            count,
        },
    }
}

/// What refuses a branch's word, where those values were listed before.
fn value_row(before: Slots, at: u64, value: Option<u64>) -> Option<Refusal>
    requires { IfSome value (λ v. v < 64) }
    ensures { result ≡ spec.value_row_by (has before) at value }
{
    match value {
        None => Some(Refusal {
            at,
            kind: ModelKind::UnknownName,
        }),
        Some(v) => refused_if(before.has(v), at, ModelKind::RepeatedName),
    }
}

/// The first refusal of a branch's word, and the values that are listed.
#[tactic(auto, using(crate::proofs::NodeLemmas::rows_more, crate::proofs::NodeLemmas::rows_over))]
fn value_rows(branches: &[Listed]) -> (Option<Refusal>, Slots)
    requires { All spec.IsSmallValue branches.now }
    ensures rows { result.0 ≡ spec.value_rows [] branches.now None }
    ensures listed { (v : ℕ) → v < 64 → has result.1 v ≡ spec.lists branches.now v }
{
    let mut first = None;
    let mut listed = Slots::none();
    for branch in branches {
        first = lesser(first, value_row(listed, branch.at, branch.value));
        listed = with_value(listed, branch.value);
    }
    (first, listed)
}

/// A set with one number more, if there is one.
fn with_value(set: Slots, value: Option<u64>) -> Slots
    requires { IfSome value (λ v. v < 64) }
    ensures { result ≡ spec.with_value set value }
{
    match value {
        None => set,
        Some(v) => set.union(Slots::one(v)),
    }
}

/// Whether a set has each number below a count.
fn has_all(set: Slots, count: u64) -> bool
    requires { count ≤ 64 }
    ensures { result ≡ list_all (has set) (range_with_len 0 count) }
{
    (0..count).all(|v| set.has(v))
}

/// Whether a node's variable may be mentioned.
fn may_branch(allowed: Slots, node: Branching) -> bool
    requires { node.slot < 64 }
    ensures { result ≡ (node.is_sayable && has allowed node.slot) }
{
    node.is_sayable && allowed.has(node.slot)
}

/// The first refusal of a node or inside it.
#[tactic(auto, using(crate::proofs::NodeLemmas::node_rows_is))]
fn node_rows(allowed: Slots, node: Branching, branches: &[Listed]) -> Option<Refusal>
    requires slot { node.slot < 64 }
    requires count { node.count ≤ 64 }
    requires small { All spec.IsSmallValue branches.now }
    ensures { result ≡ spec.node_rows allowed node branches.now }
{
    let (words, listed) = value_rows(branches);
    let is_allowed = may_branch(allowed, node);
    let scope = refused_if(!is_allowed, node.at, ModelKind::BadScope);
    let missing = refused_if(
        !has_all(listed, node.count),
        node.left,
        ModelKind::MissingValue,
    );
    lesser(
        scope,
        lesser(missing, lesser(words, inside_branches(branches))),
    )
}

fn is_value(value: Option<u64>, number: u64) -> bool
    ensures { result ≡ spec.is_value number value }
{
    match value {
        None => false,
        Some(v) => v == number,
    }
}

/// The first branch that lists a value.
fn branch_at(branches: &[Listed], value: u64) -> Option<&Listed>
    ensures { option_copied result ≡ spec.branch_at branches.now value }
{
    branches.iter().find(|branch| is_value(branch.value, value))
}

/// The function of a value, on its own.
fn part(
    alloc: Global,
    left: u64,
    branches: &[Listed],
    value: u64,
) -> Result<Result<Func, Refusal>, NoMemory>
    ensures { IfOk result (λ r. r ≡ spec.part left branches.now value) }
{
    match branch_at(branches, value) {
        None => Ok(Err(Refusal {
            at: left,
            kind: ModelKind::MissingValue,
        })),
        Some(found) => match &found.judged.outcome {
            Ok(func) => Ok(Ok(func.func().copied(alloc)?)),
            Err(refusal) => Ok(Err(*refusal)),
        },
    }
}

/// The functions of the values, in order.
#[tactic(auto, using(crate::proofs::NodeLemmas::part_ok, crate::proofs::NodeLemmas::part_err, crate::proofs::NodeLemmas::parts_over))]
fn parts_of(
    alloc: Global,
    left: u64,
    branches: &[Listed],
    count: u64,
) -> Result<Result<Funcs, Refusal>, NoMemory>
    ensures { IfOk result (λ r. r ≡ spec.parts_from left branches.now [] (range_with_len 0 count)) }
{
    let mut parts = Funcs::new(alloc);
    for value in 0..count {
        match part(alloc, left, branches, value)? {
            Ok(func) => parts.push(func)?,
            Err(refusal) => return Ok(Err(refusal)),
        }
    }
    Ok(Ok(parts))
}

/// The choice between the functions of the values.
fn chosen(
    alloc: Global,
    scope: &Scope,
    node: Branching,
    branches: &[Listed],
) -> Result<Result<Shared, Refusal>, NoMemory>
    requires slot { node.slot < length scope.now.sizes }
    requires count { node.count ≡ size_of scope.now node.slot }
    requires good { All (λ l. IfGood scope.now l.judged) branches.now }
    ensures { IfOk result (λ r. r ≡ spec.choice_between scope.now node branches.now) }
{
    match parts_of(alloc, node.left, branches, node.count)? {
        Err(refusal) => Ok(Err(refusal)),
        Ok(parts) => {
            let made = branch(alloc, scope, node.slot, parts.as_slice())?;
            Ok(Ok(Shared::new(alloc, made)?))
        }
    }
}

/// A node of a known variable.
pub(crate) fn known_node(
    alloc: Global,
    scope: &Scope,
    allowed: Slots,
    node: Branching,
    branches: &[Listed],
) -> Result<Judged, NoMemory>
    requires slot { node.slot < length scope.now.sizes }
    requires count { node.count ≡ size_of scope.now node.slot }
    requires small { All spec.IsSmallValue branches.now }
    requires good { All (λ l. IfGood scope.now l.judged) branches.now }
    ensures { IfOk result (λ j. j ≡ spec.known_node scope.now allowed node branches.now) }
{
    let _ = scope.slots();
    let outcome = match node_rows(allowed, node, branches) {
        Some(refusal) => Err(refusal),
        None => chosen(alloc, scope, node, branches)?,
    };
    Ok(Judged {
        mentions: mentioned_in_branches(Slots::one(node.slot), branches),
        outcome,
    })
}

/// A node of an unknown variable.
pub(crate) fn unknown_node(at: u64, branches: &[Listed]) -> Judged
    ensures { result ≡ spec.unknown_node at branches.now }
{
    let unknown = Refusal {
        at,
        kind: ModelKind::UnknownName,
    };
    let first = lesser(Some(unknown), inside_branches(branches)).unwrap_or(unknown);
    Judged {
        mentions: mentioned_in_branches(Slots::none(), branches),
        outcome: Err(first),
    }
}
