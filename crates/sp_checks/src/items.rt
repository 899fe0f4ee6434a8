//! The items of an action.

ghost use Rattle.std.specs.Prelude.{◌≡◌, ◌<◌, ◌++◌, [], ◌∷◌, is_some, replicate, length, slice_index_or, slice_set, Some, None, IfOk};
ghost use Rattle.sp_trees.specs.Nodes.{IsPlace};
ghost use Rattle.sp_declarations.specs.Steps.{GivesOrRunsOut, Leaves};
ghost use Rattle.sp_checks.specs.Kept.{IsFitEnv, IsListing};
ghost use Rattle.sp_checks.specs.Actions as spec;

use crate::accepted::{accept, table_of};
use crate::roles::Role;
use sp_dd::NoMemory;
use sp_declarations::{ModelError, refuse};
use sp_lex::Span;
use sp_rows::Table;
use sp_syntax::{Item, Observed, Tree};
use sp_trees::{Env, ModelKind, Place, Shared, place_of, refused_if, text};
use std::alloc::Global;
use std::marker::Model;

/// The tables of some variables, of which some aren't listed. Contracts see them as a list.
#[derive(Drop)]
pub struct Tables {
    list: Vec<Option<Shared>>,
}

impl Model for Tables {
    ghost use Rattle.std.specs.Prelude.{List, Option};
    ghost use Rattle.sp_dd.specs.Func.{Func};

    ghost Value = { List (Option Func) };

    ghost view = { λ t. t.list.items };
}

impl Tables {
    /// So many variables that aren't listed.
    #[tactic(auto, using(crate::proofs::ItemLemmas::none_more))]
    fn new(alloc: Global, count: u64) -> Result<Tables, NoMemory>
        ensures { IfOk result (λ t. t ≡ replicate count None) }
    {
        let mut list = Vec::new(alloc);
        for one in 0..count {
            let _ = one;
            list.push(None).map_err(|_| NoMemory)?;
        }
        Ok(Tables { list })
    }

    /// Whether a variable is listed.
    fn has(&self, variable: u64) -> bool
        requires { variable < length self.now }
        ensures { result ≡ is_some (slice_index_or self.now variable None) }
    {
        self.list[variable as usize].is_some()
    }

    /// Lists a variable.
    fn put(&mut self, variable: u64, table: Shared)
        requires { variable < length self.old }
        ensures { self.new ≡ slice_set self.old variable (Some table) }
    {
        self.list[variable as usize] = Some(table);
    }

    /// The tables.
    pub fn as_slice(&self) -> &[Option<Shared>]
        ensures { result.now ≡ self.now }
    {
        self.list.as_slice()
    }
}

/// The items of an action so far: its number, and what it lists.
#[derive(Drop)]
pub struct Listed {
    pub action: u64,
    pub moves: Tables,
    pub sights: Tables,
    pub cost: Option<Shared>,
    pub has_observe: bool,
}

/// Whether a variable is listed.
fn is_listed(listed: &Listed, place: Place) -> bool
    requires { spec.IsInRange listed.now place }
    ensures { result ≡ spec.is_listed listed.now place }
{
    match place {
        Place::Variable(variable) => listed.moves.has(variable),
        Place::Sight(sight) => listed.sights.has(sight),
    }
}

/// A variable that isn't listed yet.
fn unlisted(listed: &Listed, at: u64, place: Place) -> Result<Place, ModelError>
    requires { spec.IsInRange listed.now place }
    ensures { GivesOrRunsOut (spec.unlisted_place listed.now at place) result }
{
    if is_listed(listed, place) {
        return Err(ModelError::Fault {
            at,
            kind: ModelKind::RepeatedName,
        });
    }
    Ok(place)
}

/// What a word names that the action doesn't list yet.
#[tactic(auto, using(crate::proofs::ItemLemmas::named_some, crate::proofs::ItemLemmas::named_none, crate::proofs::ItemLemmas::in_range))]
fn named(env: &Env<'_>, source: &[u8], listed: &Listed, word: Span) -> Result<Place, ModelError>
    requires { IsListing env.now listed.now }
    ensures value { GivesOrRunsOut (spec.place_of_name env.now source.now listed.now word) result }
    ensures within { IfOk result (IsPlace env.now) }
{
    match place_of(env, text(source, word)) {
        Some(place) => unlisted(listed, word.start, place),
        None => Err(ModelError::Fault {
            at: word.start,
            kind: ModelKind::UnknownName,
        }),
    }
}

/// The table of a named variable.
fn variable_at(
    alloc: Global,
    env: &Env<'_>,
    source: &[u8],
    listed: &mut Listed,
    word: Span,
    tree: &Tree,
    place: Place,
) -> Result<(), ModelError>
    requires env { IsFitEnv env.now }
    requires listed { IsListing env.now listed.old }
    requires place { IsPlace env.now place }
    ensures { Leaves (spec.variable_at env.now source.now listed.old word tree.now place) result listed.new }
{
    match place {
        Place::Variable(variable) => {
            let table = table_of(
                alloc,
                env,
                source,
                listed.action,
                Table::Move(variable),
                tree,
            )?;
            listed.moves.put(variable, table);
            Ok(())
        }
        Place::Sight(_) => Err(ModelError::Fault {
            at: word.start,
            kind: ModelKind::BadScope,
        }),
    }
}

/// An item `NAME tree`.
#[tactic(auto, using(crate::proofs::ItemLemmas::variable_err, crate::proofs::ItemLemmas::variable_then))]
fn variable(
    alloc: Global,
    env: &Env<'_>,
    source: &[u8],
    listed: &mut Listed,
    word: Span,
    tree: &Tree,
) -> Result<(), ModelError>
    requires env { IsFitEnv env.now }
    requires listed { IsListing env.now listed.old }
    ensures { Leaves (spec.variable env.now source.now listed.old word tree.now) result listed.new }
{
    let place = named(env, source, listed, word)?;
    variable_at(alloc, env, source, listed, word, tree, place)
}

/// The table of a named observation variable.
fn observed_at(
    alloc: Global,
    env: &Env<'_>,
    source: &[u8],
    listed: &mut Listed,
    next: &Observed,
    place: Place,
) -> Result<(), ModelError>
    requires env { IsFitEnv env.now }
    requires listed { IsListing env.now listed.old }
    requires place { IsPlace env.now place }
    ensures { Leaves (spec.observed_at env.now source.now listed.old next.now place) result listed.new }
{
    match place {
        Place::Sight(sight) => {
            let table = table_of(
                alloc,
                env,
                source,
                listed.action,
                Table::Sight(sight),
                &next.tree,
            )?;
            listed.sights.put(sight, table);
            Ok(())
        }
        Place::Variable(_) => Err(ModelError::Fault {
            at: next.name.start,
            kind: ModelKind::BadScope,
        }),
    }
}

/// A pair `NAME tree` in the list of `observe`.
#[tactic(auto, using(crate::proofs::ItemLemmas::observed_err, crate::proofs::ItemLemmas::observed_then))]
fn observed(
    alloc: Global,
    env: &Env<'_>,
    source: &[u8],
    listed: &mut Listed,
    next: &Observed,
) -> Result<(), ModelError>
    requires env { IsFitEnv env.now }
    requires listed { IsListing env.now listed.old }
    ensures { Leaves (spec.observe_entry env.now source.now listed.old next.now) result listed.new }
{
    let place = named(env, source, listed, next.name)?;
    observed_at(alloc, env, source, listed, next, place)
}

/// The pairs in the list of `observe`.
#[tactic(auto, using(sp_declarations::proofs::StepLemmas::turn_ok, sp_declarations::proofs::StepLemmas::turn_err, sp_declarations::proofs::StepLemmas::turns_over))]
fn observed_in_turn(
    alloc: Global,
    env: &Env<'_>,
    source: &[u8],
    listed: &mut Listed,
    list: &[Observed],
) -> Result<(), ModelError>
    requires env { IsFitEnv env.now }
    requires listed { IsListing env.now listed.old }
    ensures { Leaves (spec.observed_in_turn env.now source.now listed.old list.now) result listed.new }
{
    for next in list {
        observed(alloc, env, source, listed, next)?;
    }
    Ok(())
}

/// Marks that `observe` is listed, where it wasn't before.
#[tactic(auto, unfolding(crate::specs::Actions::begun_observe))]
fn begin_observe(listed: &mut Listed, at: u64) -> Result<(), ModelError>
    ensures { Leaves (spec.begun_observe listed.old at) result listed.new }
{
    refuse(refused_if(listed.has_observe, at, ModelKind::RepeatedName))?;
    listed.has_observe = true;
    Ok(())
}

/// The list of `observe`.
#[tactic(auto, using(crate::proofs::ItemLemmas::observe_err, crate::proofs::ItemLemmas::observe_then))]
fn observe(
    alloc: Global,
    env: &Env<'_>,
    source: &[u8],
    listed: &mut Listed,
    keyword: Span,
    list: &[Observed],
) -> Result<(), ModelError>
    requires env { IsFitEnv env.now }
    requires listed { IsListing env.now listed.old }
    ensures { Leaves (spec.observe env.now source.now listed.old keyword list.now) result listed.new }
{
    begin_observe(listed, keyword.start)?;
    observed_in_turn(alloc, env, source, listed, list)
}

/// Whether no cost was listed before.
fn check_cost(listed: &Listed, at: u64) -> Result<(), ModelError>
    ensures { GivesOrRunsOut (spec.checked_cost listed.now at) result }
{
    refuse(refused_if(listed.cost.is_some(), at, ModelKind::RepeatedName))
}

/// The cost.
#[tactic(auto, using(crate::proofs::ItemLemmas::cost_err, crate::proofs::ItemLemmas::cost_tree_err, crate::proofs::ItemLemmas::cost_ok))]
fn cost(
    alloc: Global,
    env: &Env<'_>,
    source: &[u8],
    listed: &mut Listed,
    keyword: Span,
    tree: &Tree,
) -> Result<(), ModelError>
    requires { IsFitEnv env.now }
    ensures { Leaves (spec.cost env.now source.now listed.old keyword tree.now) result listed.new }
{
    check_cost(listed, keyword.start)?;
    let accepted = accept(alloc, env, source, Role::Reward, tree)?;
    listed.cost = Some(accepted.func);
    Ok(())
}

/// One more item.
fn item(
    alloc: Global,
    env: &Env<'_>,
    source: &[u8],
    listed: &mut Listed,
    next: &Item,
) -> Result<(), ModelError>
    requires env { IsFitEnv env.now }
    requires listed { IsListing env.now listed.old }
    ensures { Leaves (spec.item env.now source.now listed.old next.now) result listed.new }
{
    match next {
        Item::Variable { name, tree } => variable(alloc, env, source, listed, *name, tree),
        Item::Observe { keyword, list, .. } => {
            observe(alloc, env, source, listed, *keyword, list.as_slice())
        }
        Item::Cost { keyword, tree } => cost(alloc, env, source, listed, *keyword, tree),
    }
}

/// An action that lists nothing.
fn nothing_listed(alloc: Global, env: &Env<'_>, action: u64) -> Result<Listed, NoMemory>
    ensures { IfOk result (λ l. l ≡ spec.nothing_listed env.now action) }
{
    let moves = Tables::new(alloc, env.variables.len())?;
    let sights = Tables::new(alloc, env.sights.len())?;
    Ok(Listed {
        action,
        moves,
        sights,
        cost: None,
        has_observe: false,
    })
}

/// All items of an action.
#[tactic(auto, using(sp_declarations::proofs::StepLemmas::turn_ok, sp_declarations::proofs::StepLemmas::turn_err, sp_declarations::proofs::StepLemmas::turns_over), unfolding(crate::specs::Actions::items))]
pub(crate) fn items(
    alloc: Global,
    env: &Env<'_>,
    source: &[u8],
    action: u64,
    list: &[Item],
) -> Result<Listed, ModelError>
    requires { IsFitEnv env.now }
    ensures value { GivesOrRunsOut (spec.items env.now source.now action list.now) result }
    ensures count { IfOk result (λ l. length l.moves ≡ env.now.scope.variables) }
{
    let mut listed = nothing_listed(alloc, env, action)?;
    for next in list {
        item(alloc, env, source, &mut listed, next)?;
    }
    Ok(listed)
}
