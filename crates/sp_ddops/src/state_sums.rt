//! The sum over all states of the product of two functions.
ghost use Rattle.std.specs.Prelude.{◌≡◌, ◌≤◌, ◌<◌, ◌-◌, ◌^◌, ◌≤ℤ◌, ◌*ℤ◌, ℕ, pos, length, get_or, unsigned_abs, FitsSigned, IfOk, IfSome, OnOk};
ghost use mir.Syntax.{w128};
ghost use Rattle.sp_dd.specs.Func.{Everywhere, IsOnUnprimed, IsScope};
ghost use Rattle.sp_dd.specs.Operations.{state_total, state_dot};
ghost use Rattle.sp_dd.specs.Ordered.{IsBefore, node_at};
ghost use Rattle.sp_ddops.specs.Pairs.{IsPair, least_slot, state_cofactor};
ghost use Rattle.sp_ddops.specs.StateSums.{widths_of, sum_over, pair_value, unit_part, unit_pair, leaf_factor, spread, IsLight, AreSums};

use crate::cofactor::{cofactor, leaf_in, slot_in};
use crate::pair_table::{PairTable, key_in};
use sp_dd::{Choice, Diagram, NoMemory, Nodes, Part, Scope, State};
use std::alloc::Global;

/// Two lists of nodes of a scope.
#[derive(Drop)]
pub struct Factors<'a> {
    pub scope: &'a Scope,
    pub left: &'a Nodes,
    pub right: &'a Nodes,
}

/// The sum of `w * f` over all states: one for each choice of values of the unprimed state slots. A slot on which neither
/// function branches counts once for each of its values.
pub fn dot(alloc: Global, w: &Diagram, f: &Diagram) -> Result<i128, NoMemory>
    requires scopes { w.now.shape ≡ f.now.shape }
    requires unprimed_w { IsOnUnprimed w.now }
    requires unprimed_f { IsOnUnprimed f.now }
    requires not_negative { Everywhere w.now (λ v. pos 0 ≤ℤ v) }
    requires total { state_total w.now ≤ℤ pos (2 ^ 62) }
    requires small { Everywhere f.now (λ v. unsigned_abs v ≤ 2 ^ 62) }
    ensures { IfOk result (λ r. r ≡ state_dot w.now f.now) }
{
    let factors = Factors {
        scope: w.scope(),
        left: w.nodes(),
        right: f.nodes(),
    };
    let start = State {
        left: w.root(),
        right: f.root(),
        choice: Choice::Open,
    };
    let mut known = PairTable::new(alloc, w.nodes().len().min(f.nodes().len()));
    let sum = sum_from(&factors, &mut known, start, 0)?;
    Ok(sum)
}

/// The sum of the product of two parts over the values that states give to the slots from `from` on.
#[cycle(sums)]
#[inline(always)]
fn sum_from(
    factors: &Factors,
    known: &mut PairTable,
    state: State,
    from: u64,
) -> Result<i128, NoMemory>
    requires scope { IsScope factors.now.scope.now }
    requires pair { IsPair factors.now.scope.now.sizes factors.now.left.now factors.now.right.now state }
    requires from { from ≤ least_slot factors.now.scope.now.sizes factors.now.left.now factors.now.right.now state }
    requires light { IsLight (widths_of factors.now.scope.now) from (pair_value factors.now.left.now factors.now.right.now state) }
    requires known { AreSums factors.now.scope.now factors.now.left.now factors.now.right.now known.old }
    ensures sum { IfOk result (λ z. z ≡ sum_over (widths_of factors.now.scope.now) from (pair_value factors.now.left.now factors.now.right.now state)) }
    ensures known { OnOk result (AreSums factors.now.scope.now factors.now.left.now factors.now.right.now known.new) }
{
    let zero = Part::Leaf(0);
    if state.left.is_same(&zero) {
        return Ok(0);
    }
    if state.right.is_same(&zero) {
        return Ok(0);
    }
    let slot = first_slot(factors.scope, factors.left, factors.right, &state);
    if slot == factors.scope.slots() {
        let product = leaf_in(state.left) * leaf_in(state.right);
        return Ok(times_skipped(factors.scope, product, from, slot));
    }
    let sum = sum_of_nodes(factors, known, ones_for_leaves(state), slot)?;
    let scaled = times_leaf(state, sum);
    Ok(times_skipped(factors.scope, scaled, from, slot))
}

/// The sum of the product of two parts over the values that states give to the slots from the pair's first on. A leaf among them
/// is 1, so that each node is met with it once.
#[cycle(sums)]
fn sum_of_nodes(
    factors: &Factors,
    known: &mut PairTable,
    state: State,
    slot: u64,
) -> Result<i128, NoMemory>
    requires scope { IsScope factors.now.scope.now }
    requires pair { IsPair factors.now.scope.now.sizes factors.now.left.now factors.now.right.now state }
    requires unit { state ≡ unit_pair state }
    requires slot { slot ≡ least_slot factors.now.scope.now.sizes factors.now.left.now factors.now.right.now state }
    requires within { slot < length factors.now.scope.now.sizes }
    requires light { IsLight (widths_of factors.now.scope.now) slot (pair_value factors.now.left.now factors.now.right.now state) }
    requires known { AreSums factors.now.scope.now factors.now.left.now factors.now.right.now known.old }
    ensures sum { IfOk result (λ z. z ≡ sum_over (widths_of factors.now.scope.now) slot (pair_value factors.now.left.now factors.now.right.now state)) }
    ensures known { OnOk result (AreSums factors.now.scope.now factors.now.left.now factors.now.right.now known.new) }
{
    let is_recurring = factors.left.is_shared(state.left) || factors.right.is_shared(state.right);
    if let Some(sum) = recalled(factors, known, &state, is_recurring) {
        return Ok(sum);
    }
    let mut sum = 0;
    for value in 0..state_width(factors.scope, slot) {
        let next = next_pair(factors.left, factors.right, &state, slot, value);
        let part = sum_from(factors, known, next, slot + 1)?;
        sum += part;
    }
    remember(factors, known, &state, sum, is_recurring)?;
    Ok(sum)
}

/// What is remembered of a pair, where several ways may lead to it.
#[inline(always)]
fn recalled(factors: &Factors, known: &PairTable, state: &State, is_recurring: bool) -> Option<i128>
    requires left { IsBefore (length factors.now.left.now) state.now.left }
    requires right { IsBefore (length factors.now.right.now) state.now.right }
    requires unit { state.now ≡ unit_pair state.now }
    requires known { AreSums factors.now.scope.now factors.now.left.now factors.now.right.now known.now }
    ensures { IfSome result (λ z. z ≡ sum_over (widths_of factors.now.scope.now) (least_slot factors.now.scope.now.sizes factors.now.left.now factors.now.right.now state.now) (pair_value factors.now.left.now factors.now.right.now state.now)) }
{
    if !is_recurring {
        return None;
    }
    known.find(
        key_in(factors.left, state.left),
        key_in(factors.right, state.right),
    )
}

/// Remembers the sum of a pair, where several ways may lead to it.
#[inline(always)]
fn remember(
    factors: &Factors,
    known: &mut PairTable,
    state: &State,
    sum: i128,
    is_recurring: bool,
) -> Result<(), NoMemory>
    requires left { IsBefore (length factors.now.left.now) state.now.left }
    requires right { IsBefore (length factors.now.right.now) state.now.right }
    requires unit { state.now ≡ unit_pair state.now }
    requires sum { sum ≡ sum_over (widths_of factors.now.scope.now) (least_slot factors.now.scope.now.sizes factors.now.left.now factors.now.right.now state.now) (pair_value factors.now.left.now factors.now.right.now state.now) }
    requires known { AreSums factors.now.scope.now factors.now.left.now factors.now.right.now known.old }
    ensures { OnOk result (AreSums factors.now.scope.now factors.now.left.now factors.now.right.now known.new) }
{
    if !is_recurring {
        return Ok(());
    }
    let left = key_in(factors.left, state.left);
    let right = key_in(factors.right, state.right);
    known.keep(left, right, sum)?;
    Ok(())
}

/// A pair with 1 for each leaf.
#[inline(always)]
fn ones_for_leaves(state: State) -> State
    ensures { result ≡ unit_pair state }
{
    State {
        left: one_for_leaf(state.left),
        right: one_for_leaf(state.right),
        choice: Choice::Open,
    }
}

#[inline(always)]
fn one_for_leaf(part: Part) -> Part
    ensures { result ≡ unit_part part }
{
    match part {
        Part::Leaf(_) => Part::Leaf(1),
        Part::At(_) => part,
    }
}

/// A sum times the leaf of a pair.
#[inline(always)]
fn times_leaf(state: State, sum: i128) -> i128
    requires { FitsSigned w128 (sum *ℤ leaf_factor state.left state.right) }
    ensures { result ≡ sum *ℤ leaf_factor state.left state.right }
{
    match state.left {
        Part::Leaf(value) => sum * value,
        Part::At(_) => match state.right {
            Part::Leaf(value) => sum * value,
            Part::At(_) => sum,
        },
    }
}

/// The slot on which a pair of parts branches first, or the number of slots.
#[inline(always)]
pub fn first_slot(scope: &Scope, left: &Nodes, right: &Nodes, state: &State) -> u64
    requires left { IsBefore (length left.now) state.now.left }
    requires right { IsBefore (length right.now) state.now.right }
    ensures { result ≡ least_slot scope.now.sizes left.now right.now state.now }
{
    let count = scope.slots();
    slot_in(left, state.left, count).min(slot_in(right, state.right, count))
}

/// Both parts where the pair's first slot has a value.
#[inline(always)]
pub fn next_pair(left: &Nodes, right: &Nodes, state: &State, slot: u64, value: u64) -> State
    requires left { IsBefore (length left.now) state.now.left }
    requires right { IsBefore (length right.now) state.now.right }
    requires left_value { (i : ℕ) → i < length left.now → (node_at left.now i).slot ≡ slot → value < length (node_at left.now i).parts }
    requires right_value { (i : ℕ) → i < length right.now → (node_at right.now i).slot ≡ slot → value < length (node_at right.now i).parts }
    ensures { result ≡ state_cofactor left.now right.now slot value state.now }
{
    State {
        left: cofactor(left, slot, value, state.left),
        right: cofactor(right, slot, value, state.right),
        choice: state.choice,
    }
}

/// A sum once for each choice of values of the slots from `from` up to `to`.
fn times_skipped(scope: &Scope, sum: i128, from: u64, to: u64) -> i128
    requires scope { IsScope scope.now }
    requires order { from ≤ to }
    requires within { to ≤ length scope.now.sizes }
    requires fits { unsigned_abs (spread (widths_of scope.now) from (to - from) sum) ≤ 2 ^ 124 }
    ensures { result ≡ spread (widths_of scope.now) from (to - from) sum }
{
    let first = from + from % 2;
    if first >= to {
        return sum;
    }
    if first >= 2 * scope.variables() {
        return sum;
    }
    let mut product = sum;
    let mut slot = to;
    while slot > from {
        slot -= 1;
        product *= state_width(scope, slot) as i128;
    }
    product
}

/// How many values states give to a slot: one where it isn't an unprimed state slot.
#[inline(always)]
fn state_width(scope: &Scope, slot: u64) -> u64
    requires scope { IsScope scope.now }
    requires slot { slot < length scope.now.sizes }
    ensures { result ≡ get_or (widths_of scope.now) slot 0 }
{
    if slot >= 2 * scope.variables() {
        return 1;
    }
    if slot % 2 == 1 {
        return 1;
    }
    scope.size(slot)
}
