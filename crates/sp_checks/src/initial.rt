//! The initial belief.

ghost use Rattle.std.specs.Prelude.{◌≡◌, ◌≤◌, ◌<◌, ◌^◌, ◌++◌, [], ◌∷◌, map, All, IfOk, OnOk, if◌then◌else◌};
ghost use Rattle.sp_trees.specs.Good.{IfGood, IsEnv};
ghost use Rattle.sp_declarations.specs.Steps.{GivesOrRunsOut, Leaves};
ghost use Rattle.sp_rows.specs.Tables.{own_count};
ghost use Rattle.sp_checks.specs.Accepted.{lent_answer};
ghost use Rattle.sp_checks.specs.Kept.{IsFitEnv};
ghost use Rattle.sp_checks.specs.Initial as spec;

use crate::roles::{Role, allowed, start_of};
use crate::state::State;
use sp_dd::{Ids, NoMemory};
use sp_declarations::{ModelError, refuse};
use sp_lex::Span;
use sp_model::{Factor, Factors, Func};
use sp_rows::{bad_sum, is_probability};
use sp_syntax::Tree;
use sp_trees::{Env, Judged, ModelKind, Refusal, Slots, judge, lesser, refused_if};
use std::alloc::Global;

/// A factor's place, and what judging it gave.
#[derive(Drop)]
pub struct Share {
    pub at: u64,
    pub judged: Judged,
}

/// The factors so far, and the slots that they mention.
#[derive(Drop)]
pub struct Factored {
    pub used: Slots,
    pub list: Factors,
}

/// A number more, where the test says so.
fn push_if(own: &mut Ids, test: bool, variable: u64) -> Result<(), NoMemory>
    ensures { OnOk result (own.new ≡ own.old ++ (if test then variable ∷ [] else [])) }
{
    if test { own.push(variable) } else { Ok(()) }
}

/// The own variables of a factor that mentions these slots.
#[tactic(auto, using(crate::proofs::OwnLemmas::own_more))]
fn own_of(alloc: Global, variables: u64, mentions: Slots) -> Result<Ids, NoMemory>
    requires { variables ≤ 28 }
    ensures { IfOk result (λ own. own ≡ spec.own_of variables mentions) }
{
    let mut own = Ids::new(alloc);
    for variable in 0..variables {
        push_if(&mut own, mentions.has(2 * variable), variable)?;
    }
    Ok(own)
}

/// Whether some variable is mentioned unprimed by both.
fn shares(variables: u64, a: Slots, b: Slots) -> bool
    requires { variables ≤ 28 }
    ensures { result ≡ spec.shares variables a b }
{
    (0..variables).any(|variable| a.has(2 * variable) && b.has(2 * variable))
}

/// Whether each variable is mentioned unprimed.
fn has_every(variables: u64, mentions: Slots) -> bool
    requires { variables ≤ 28 }
    ensures { result ≡ spec.has_every variables mentions }
{
    (0..variables).all(|variable| mentions.has(2 * variable))
}

/// What all factors mention.
fn mentioned(shares: &[Share]) -> Slots
    ensures { result ≡ spec.mentions_of_factors shares.now }
{
    shares.iter().fold(Slots::none(), |all, share| all.union(share.judged.mentions))
}

/// One more factor.
fn push_share(list: &mut Vec<Share>, share: Share) -> Result<(), NoMemory>
    ensures { OnOk result (list.new.items ≡ list.old.items ++ share ∷ []) }
{
    list.push(share).map_err(|_| NoMemory)
}

/// The factors' trees, judged.
#[tactic(auto, using(std::proofs::lemmas::List::map_more))]
fn judged(
    alloc: Global,
    env: &Env<'_>,
    source: &[u8],
    trees: &[Tree],
) -> Result<Vec<Share>, NoMemory>
    requires { IsEnv env.now }
    ensures value { IfOk result (λ list. list.items ≡ map (spec.share_of env.now source.now) trees.now) }
{
    let mut list = Vec::new(alloc);
    for tree in trees {
        let judged = judge(alloc, env, allowed(&env.scope, Role::Init), source, tree)?;
        push_share(
            &mut list,
            Share {
                at: start_of(tree),
                judged,
            },
        )?;
    }
    Ok(list)
}

/// What refuses a factor by its sum.
fn sum_refusal(at: u64, found: Option<i128>) -> Option<Refusal>
    ensures { result ≡ spec.sum_refusal at found }
{
    match found {
        None => None,
        Some(sum) => Some(Refusal {
            at,
            kind: ModelKind::InitSum { sum },
        }),
    }
}

/// What refuses a factor by its values.
#[tactic(auto, unfolding(crate::specs::Initial::value_refusal))]
fn value_refusal(
    alloc: Global,
    at: u64,
    func: &Func,
    own: &Ids,
) -> Result<Option<Refusal>, NoMemory>
    requires own { All (λ i. i < func.now.shape.variables) own.now }
    requires few { own_count func.now.shape own.now ≤ 2 ^ 24 }
    ensures { IfOk result (λ r. r ≡ spec.value_refusal at func.now own.now) }
{
    if is_probability(func) {
        let found = bad_sum(alloc, func, own.as_slice())?;
        Ok(sum_refusal(at, found))
    } else {
        Ok(Some(Refusal {
            at,
            kind: ModelKind::BadProbability,
        }))
    }
}

/// Whether a function may be a factor with these own variables.
fn check_values(alloc: Global, at: u64, func: &Func, own: &Ids) -> Result<(), ModelError>
    requires own { All (λ i. i < func.now.shape.variables) own.now }
    requires few { own_count func.now.shape own.now ≤ 2 ^ 24 }
    ensures { GivesOrRunsOut (spec.checked_values at func.now own.now) result }
{
    let refused = value_refusal(alloc, at, func, own)?;
    refuse(refused)
}

/// Whether a factor shares no variable with those before it, and is refused nowhere inside.
#[tactic(auto, using(crate::proofs::TableLemmas::few_variables))]
fn check_share(env: &Env<'_>, used: Slots, share: &Share) -> Result<(), ModelError>
    requires { IsFitEnv env.now }
    ensures { GivesOrRunsOut (spec.checked_share env.now.scope.variables used share.now) result }
{
    let shared = refused_if(
        shares(env.scope.variables(), used, share.judged.mentions),
        share.at,
        ModelKind::BadScope,
    );
    refuse(lesser(shared, share.judged.refusal()))
}

/// The function of a factor.
fn func_of(share: &Share) -> Result<&Func, ModelError>
    ensures value { GivesOrRunsOut share.now.judged.outcome (lent_answer result) }
{
    match &share.judged.outcome {
        Ok(func) => Ok(func.func()),
        Err(refusal) => Err(ModelError::Fault {
            at: refusal.at,
            kind: refusal.kind,
        }),
    }
}

/// The own variables of a factor.
#[tactic(auto, using(crate::proofs::TableLemmas::few_variables, crate::proofs::OwnLemmas::own_within, crate::proofs::OwnLemmas::own_few))]
fn own_in(alloc: Global, env: &Env<'_>, share: &Share) -> Result<Ids, NoMemory>
    requires { IsFitEnv env.now }
    ensures { IfOk result (λ own. own ≡ spec.own_of env.now.scope.variables share.now.judged.mentions) }
{
    let own = own_of(alloc, env.scope.variables(), share.judged.mentions)?;
    Ok(own)
}

/// The function and the own variables of a factor, where its values are shares.
#[tactic(auto, using(crate::proofs::InitialLemmas::values_err, crate::proofs::InitialLemmas::owned_ok, crate::proofs::OwnLemmas::own_within, crate::proofs::OwnLemmas::own_few, crate::proofs::TableLemmas::few_variables))]
fn owned(alloc: Global, env: &Env<'_>, share: &Share, func: &Func) -> Result<Factor, ModelError>
    requires env { IsFitEnv env.now }
    requires shape { func.now.shape ≡ env.now.scope }
    ensures { GivesOrRunsOut (spec.owned env.now.scope.variables share.now func.now) result }
{
    let own = own_in(alloc, env, share)?;
    check_values(alloc, share.at, func, &own)?;
    let func = func.copied(alloc)?;
    Ok(Factor { func, own })
}

/// One more factor behind those that mention the used slots.
#[tactic(auto, using(crate::proofs::InitialLemmas::share_err, crate::proofs::InitialLemmas::func_err, crate::proofs::InitialLemmas::factor_then, crate::proofs::OwnLemmas::share_shape, crate::proofs::TableLemmas::few_variables))]
fn factor(alloc: Global, env: &Env<'_>, used: Slots, share: &Share) -> Result<Factor, ModelError>
    requires env { IsFitEnv env.now }
    requires good { IfGood env.now.scope share.now.judged }
    ensures { GivesOrRunsOut (spec.factor env.now.scope.variables used share.now) result }
{
    check_share(env, used, share)?;
    let func = func_of(share)?;
    owned(alloc, env, share, func)
}

/// The factors with one more.
#[tactic(auto, using(crate::proofs::InitialLemmas::factor_err, crate::proofs::InitialLemmas::step_ok))]
fn factor_step(
    alloc: Global,
    env: &Env<'_>,
    factored: &mut Factored,
    share: &Share,
) -> Result<(), ModelError>
    requires env { IsFitEnv env.now }
    requires good { IfGood env.now.scope share.now.judged }
    ensures { Leaves (spec.factor_step env.now.scope.variables factored.old share.now) result factored.new }
{
    let next = factor(alloc, env, factored.used, share)?;
    factored.list.push(next)?;
    factored.used = factored.used.union(share.judged.mentions);
    Ok(())
}

/// The factors one after another.
#[tactic(auto, using(sp_declarations::proofs::StepLemmas::turn_ok, sp_declarations::proofs::StepLemmas::turn_err, sp_declarations::proofs::StepLemmas::turns_over))]
fn factors_in_turn(alloc: Global, env: &Env<'_>, shares: &[Share]) -> Result<Factored, ModelError>
    requires env { IsFitEnv env.now }
    requires good { All (λ s. IfGood env.now.scope s.judged) shares.now }
    ensures { GivesOrRunsOut (spec.factors_in_turn env.now.scope.variables shares.now) result }
{
    let mut factored = Factored {
        used: Slots::none(),
        list: Factors::new(alloc),
    };
    for share in shares {
        factor_step(alloc, env, &mut factored, share)?;
    }
    Ok(factored)
}

/// Whether each variable is in some factor.
#[tactic(auto, using(crate::proofs::TableLemmas::few_variables))]
fn check_every(env: &Env<'_>, at: u64, shares: &[Share]) -> Result<(), ModelError>
    requires { IsFitEnv env.now }
    ensures { GivesOrRunsOut (spec.checked_every env.now.scope.variables at shares.now) result }
{
    refuse(refused_if(
        !has_every(env.scope.variables(), mentioned(shares)),
        at,
        ModelKind::BadScope,
    ))
}

/// The factors of some judged trees.
#[tactic(auto, using(crate::proofs::InitialLemmas::every_err, crate::proofs::InitialLemmas::turns_err, crate::proofs::InitialLemmas::factors_ok, crate::proofs::TableLemmas::few_variables))]
fn factors(alloc: Global, env: &Env<'_>, at: u64, shares: &[Share]) -> Result<Factors, ModelError>
    requires env { IsFitEnv env.now }
    requires good { All (λ s. IfGood env.now.scope s.judged) shares.now }
    ensures { GivesOrRunsOut (spec.factors env.now.scope.variables at shares.now) result }
{
    check_every(env, at, shares)?;
    let factored = factors_in_turn(alloc, env, shares)?;
    Ok(factored.list)
}

/// The trees of the factors: those of a product, or the tree itself.
fn factor_trees(tree: &Tree) -> &[Tree]
    ensures { result.now ≡ spec.factor_trees tree.now }
{
    match tree {
        Tree::Product { trees, .. } => trees.as_slice(),
        _ => std::slice::from_ref(tree),
    }
}

/// The factors of the tree of the initial belief.
#[tactic(auto, using(crate::proofs::OwnLemmas::shares_good))]
fn initial(
    alloc: Global,
    env: &Env<'_>,
    source: &[u8],
    at: u64,
    tree: &Tree,
) -> Result<Factors, ModelError>
    requires { IsFitEnv env.now }
    ensures { GivesOrRunsOut (spec.factors env.now.scope.variables at (map (spec.share_of env.now source.now) (spec.factor_trees tree.now))) result }
{
    let list = judged(alloc, env, source, factor_trees(tree))?;
    factors(alloc, env, at, list.as_slice())
}

/// Whether the initial belief wasn't read before.
fn check_init(state: &State<'_>, at: u64) -> Result<(), ModelError>
    ensures { GivesOrRunsOut (spec.checked_init state.now at) result }
{
    refuse(refused_if(state.init.is_some(), at, ModelKind::RepeatedName))
}

/// The section of the initial belief.
#[tactic(auto, using(crate::proofs::InitialLemmas::init_err, crate::proofs::InitialLemmas::factors_err, crate::proofs::InitialLemmas::init_ok))]
pub(crate) fn init(
    alloc: Global,
    source: &[u8],
    state: &mut State<'_>,
    keyword: Span,
    tree: &Tree,
) -> Result<(), ModelError>
    requires { IsFitEnv state.old.env }
    ensures { Leaves (spec.init source.now state.old keyword tree.now) result state.new }
{
    check_init(state, keyword.start)?;
    let factors = initial(alloc, &state.env, source, keyword.start, tree)?;
    state.init = Some(factors);
    Ok(())
}
