//! Judges trees.

ghost use Rattle.std.specs.Prelude.{◌≡◌, true, map, All, IfOk};
ghost use Rattle.sp_trees.specs.Good.{IfGood, IsEnv, IsGood};
ghost use Rattle.sp_trees.specs.Slots.{is_among};
ghost use Rattle.sp_trees.specs.Judge as spec;

use crate::env::Env;
use crate::judged::{Judged, Listed};
use crate::lists::{Op, list_of};
use crate::nodes::{branching_on, known_node, place_of, unknown_node, values_of};
use crate::single::{number, reference};
use crate::slots::Slots;
use crate::words::{name_span, number_of, text};
use sp_dd::NoMemory;
use sp_lex::Span;
use sp_model::{Name, Sequence};
use sp_syntax::{Branch, Tree};
use std::alloc::Global;

/// What a tree of a source means where those slots may be mentioned, and the refusal inside it that comes first.
pub fn judge(
    alloc: Global,
    env: &Env<'_>,
    allowed: Slots,
    source: &[u8],
    tree: &Tree,
) -> Result<Judged, NoMemory>
    requires { IsEnv env.now }
    ensures value { IfOk result (λ j. j ≡ spec.judgement env.now source.now allowed tree.now) }
    ensures good { IfOk result (λ j. IfGood env.now.scope j) }
    ensures allowed { IfOk result (λ j. IfOk j.outcome (λ f. is_among j.mentions allowed ≡ true)) }
{
    let judged = judge_tree(alloc, env, allowed, source, tree)?;
    Ok(judged)
}

#[cycle(judging)]
#[tactic(auto, using(crate::proofs::TreeLemmas::number_is, crate::proofs::TreeLemmas::reference_is, crate::proofs::TreeLemmas::node_is, crate::proofs::TreeLemmas::primed_is, crate::proofs::TreeLemmas::sum_is, crate::proofs::TreeLemmas::product_is))]
fn judge_tree(
    alloc: Global,
    env: &Env<'_>,
    allowed: Slots,
    source: &[u8],
    tree: &Tree,
) -> Result<Judged, NoMemory>
    requires { IsEnv env.now }
    ensures { IfOk result (λ j. j ≡ spec.judgement env.now source.now allowed tree.now) }
{
    match tree {
        Tree::Number { number: word, .. } => number(alloc, &env.scope, source, *word),
        Tree::Reference { name, .. } => reference(&env.dds, allowed, source, *name),
        Tree::Node {
            left,
            variable,
            branches,
            ..
        } => judge_node(
            alloc,
            env,
            allowed,
            source,
            false,
            *left,
            *variable,
            branches.as_slice(),
        ),
        Tree::PrimedNode {
            left,
            variable,
            branches,
            ..
        } => judge_node(
            alloc,
            env,
            allowed,
            source,
            true,
            *left,
            *variable,
            branches.as_slice(),
        ),
        Tree::Sum { left, trees, .. } => {
            let judged = judge_trees(alloc, env, allowed, source, trees.as_slice())?;
            list_of(alloc, &env.scope, Op::Sum, left.start, judged.as_slice())
        }
        Tree::Product { left, trees, .. } => {
            let judged = judge_trees(alloc, env, allowed, source, trees.as_slice())?;
            list_of(
                alloc,
                &env.scope,
                Op::Product,
                left.start,
                judged.as_slice(),
            )
        }
    }
}

#[cycle(judging)]
fn judge_node(
    alloc: Global,
    env: &Env<'_>,
    allowed: Slots,
    source: &[u8],
    is_primed: bool,
    left: Span,
    word: Span,
    branches: &[Branch],
) -> Result<Judged, NoMemory>
    requires { IsEnv env.now }
    ensures { IfOk result (λ j. j ≡ spec.node env.now source.now allowed is_primed left word (map (spec.judgement_of_branch env.now source.now allowed) branches.now)) }
{
    match place_of(env, text(source, name_span(is_primed, word))) {
        None => {
            let listed = judge_branches(alloc, env, allowed, source, &[], branches)?;
            Ok(unknown_node(word.start, listed.as_slice()))
        }
        Some(place) => {
            let values = values_of(env, place);
            let listed = judge_branches(alloc, env, allowed, source, values, branches)?;
            let node = branching_on(env, is_primed, place, left.start, word.start);
            known_node(alloc, &env.scope, allowed, node, listed.as_slice())
        }
    }
}

#[cycle(judging)]
#[tactic(auto, using(crate::proofs::TreeLemmas::map_step, crate::proofs::TreeLemmas::map_over))]
fn judge_branches(
    alloc: Global,
    env: &Env<'_>,
    allowed: Slots,
    source: &[u8],
    values: &[Name],
    branches: &[Branch],
) -> Result<Sequence<Listed>, NoMemory>
    requires { IsEnv env.now }
    ensures { IfOk result (λ ls. ls ≡ map (λ b. spec.listed_branch source.now values.now (spec.judgement_of_branch env.now source.now allowed b)) branches.now) }
{
    let mut listed = Sequence::new(alloc);
    for branch in branches {
        let judged = judge_tree(alloc, env, allowed, source, &branch.tree)?;
        let value = number_of(values, text(source, branch.value));
        listed.push(Listed {
            at: branch.value.start,
            value,
            judged,
        })?;
    }
    Ok(listed)
}

#[cycle(judging)]
#[tactic(auto, using(crate::proofs::TreeLemmas::map_step, crate::proofs::TreeLemmas::map_over))]
fn judge_trees(
    alloc: Global,
    env: &Env<'_>,
    allowed: Slots,
    source: &[u8],
    trees: &[Tree],
) -> Result<Sequence<Judged>, NoMemory>
    requires { IsEnv env.now }
    ensures { IfOk result (λ js. js ≡ map (spec.judgement env.now source.now allowed) trees.now) }
{
    let mut judged = Sequence::new(alloc);
    for tree in trees {
        let next = judge_tree(alloc, env, allowed, source, tree)?;
        judged.push(next)?;
    }
    Ok(judged)
}
