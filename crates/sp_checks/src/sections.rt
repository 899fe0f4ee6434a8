//! Sections.

ghost use Rattle.std.specs.Prelude.{◌≡◌, ◌++◌, [], ◌∷◌, None, IfOk};
ghost use Rattle.sp_trees.specs.Words.{text};
ghost use Rattle.sp_trees.specs.Dds.{dd_of_name};
ghost use Rattle.sp_declarations.specs.Steps.{GivesOrRunsOut, Leaves};
ghost use Rattle.sp_checks.specs.Kept.{IsFitEnv};
ghost use Rattle.sp_checks.specs.Sections as spec;

use crate::accepted::accept;
use crate::actions::action;
use crate::initial::init;
use crate::roles::Role;
use crate::state::State;
use sp_declarations::{ModelError, refuse};
use sp_lex::{NumError, Span, ticks};
use sp_syntax::{Section, Tree};
use sp_trees::{Dd, Dds, ModelKind, refused_if, text};
use std::alloc::Global;

/// The greatest discount in ticks.
const MOST_DISCOUNT: i128 = 999_000_000;

/// Whether no dd of that name was declared before.
fn check_dd(dds: &Dds<'_>, source: &[u8], word: Span) -> Result<(), ModelError>
    ensures refused { GivesOrRunsOut (spec.checked_dd source.now dds.now word) result }
    ensures new { IfOk result (λ _. dd_of_name (text source.now word) dds.now ≡ None) }
{
    if dds.find(text(source, word)).is_some() {
        return Err(ModelError::Fault {
            at: word.start,
            kind: ModelKind::RepeatedName,
        });
    }
    Ok(())
}

/// A dd.
#[tactic(auto, using(crate::proofs::SectionLemmas::dd_err, crate::proofs::SectionLemmas::dd_tree_err, crate::proofs::SectionLemmas::dd_ok))]
fn dd<'a>(
    alloc: Global,
    source: &'a [u8],
    state: &mut State<'a>,
    word: Span,
    tree: &Tree,
) -> Result<(), ModelError>
    requires { IsFitEnv state.old.env }
    ensures { Leaves (spec.dd source.now state.old word tree.now) result state.new }
{
    check_dd(&state.env.dds, source, word)?;
    let accepted = accept(alloc, &state.env, source, Role::Dd, tree)?;
    let next = Dd {
        mentions: accepted.mentions,
        func: accepted.func,
    };
    state.env.dds.declare(text(source, word), next)?;
    Ok(())
}

/// Whether no reward was read before.
fn check_reward(state: &State<'_>, at: u64) -> Result<(), ModelError>
    ensures { GivesOrRunsOut (spec.checked_reward state.now at) result }
{
    refuse(refused_if(state.reward.is_some(), at, ModelKind::RepeatedName))
}

/// The reward.
#[tactic(auto, using(crate::proofs::SectionLemmas::reward_err, crate::proofs::SectionLemmas::reward_tree_err, crate::proofs::SectionLemmas::reward_ok))]
fn reward(
    alloc: Global,
    source: &[u8],
    state: &mut State<'_>,
    keyword: Span,
    tree: &Tree,
) -> Result<(), ModelError>
    requires { IsFitEnv state.old.env }
    ensures { Leaves (spec.reward source.now state.old keyword tree.now) result state.new }
{
    check_reward(state, keyword.start)?;
    let accepted = accept(alloc, &state.env, source, Role::Reward, tree)?;
    state.reward = Some(accepted.func);
    Ok(())
}

fn number_kind(error: NumError) -> ModelKind
    ensures { result ≡ spec.number_kind error }
{
    match error {
        NumError::Shape => ModelKind::BadNumber,
        NumError::TooFine => ModelKind::TooFine,
        NumError::TooLarge => ModelKind::TooLarge,
    }
}

/// A discount within its range.
fn within_range(at: u64, ticks: i128) -> Result<u64, ModelError>
    ensures { GivesOrRunsOut (spec.within_range at ticks) result }
{
    if 0 <= ticks && ticks <= MOST_DISCOUNT {
        Ok(ticks as u64)
    } else {
        Err(ModelError::Fault {
            at,
            kind: ModelKind::DiscountRange,
        })
    }
}

/// The ticks of a discount's word.
#[tactic(auto, unfolding(crate::specs::Sections::discount_of))]
fn discount_of(source: &[u8], word: Span) -> Result<u64, ModelError>
    ensures { GivesOrRunsOut (spec.discount_of source.now word) result }
{
    match ticks(text(source, word)) {
        Ok(value) => within_range(word.start, value),
        Err(error) => Err(ModelError::Fault {
            at: word.start,
            kind: number_kind(error),
        }),
    }
}

/// Whether no discount was read before.
fn check_discount(state: &State<'_>, at: u64) -> Result<(), ModelError>
    ensures { GivesOrRunsOut (spec.checked_discount state.now at) result }
{
    refuse(refused_if(state.discount.is_some(), at, ModelKind::RepeatedName))
}

/// The discount.
#[tactic(auto, using(crate::proofs::SectionLemmas::discount_err, crate::proofs::SectionLemmas::discount_word_err, crate::proofs::SectionLemmas::discount_ok))]
fn discount(
    source: &[u8],
    state: &mut State<'_>,
    keyword: Span,
    word: Span,
) -> Result<(), ModelError>
    ensures { Leaves (spec.discount source.now state.old keyword word) result state.new }
{
    check_discount(state, keyword.start)?;
    let discount = discount_of(source, word)?;
    state.discount = Some(discount);
    Ok(())
}

/// One more section.
pub(crate) fn section<'a>(
    alloc: Global,
    source: &'a [u8],
    state: &mut State<'a>,
    next: &Section,
) -> Result<(), ModelError>
    requires { IsFitEnv state.old.env }
    ensures { Leaves (spec.section source.now state.old next.now) result state.new }
{
    match next {
        Section::Init { keyword, tree } => init(alloc, source, state, *keyword, tree),
        Section::Dd { name, tree, .. } => dd(alloc, source, state, *name, tree),
        Section::Action {
            name,
            items,
            end,
            ..
        } => action(alloc, source, state, *name, items.as_slice(), *end),
        Section::Reward { keyword, tree } => reward(alloc, source, state, *keyword, tree),
        Section::Discount { keyword, word } => discount(source, state, *keyword, *word),
        Section::Horizon { .. } => Ok(()),
        Section::Tolerance { .. } => Ok(()),
    }
}
