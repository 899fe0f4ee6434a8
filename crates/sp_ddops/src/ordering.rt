//! The first point at which one function is above another.
ghost use Rattle.std.specs.Prelude.{◌≡◌, ◌<◌, ◌≤◌, ◌<ℤ◌, ◌≤ℤ◌, ℕ, length, slice_index_or, take, replicate, IfOk, OnOk, MatchOption};
ghost use Rattle.std.specs.Bool.{OnTrue, OnFalse};
ghost use Rattle.sp_dd.specs.Func.{IsScope};
ghost use Rattle.sp_dd.specs.Ordered.{IsBefore};
ghost use Rattle.sp_dd.specs.Operations.{IsAtMost, IsFirstAbove};
ghost use Rattle.sp_ddops.specs.Firsts.{leaf_number, values_in, AreBelow, AreNowhere, IsFirstFrom};
ghost use Rattle.sp_ddops.specs.Pairs.{IsPair, least_slot};

use crate::cofactor::leaf_in;
use crate::pair_table::{PairTable, key_in};
use crate::state_sums::{first_slot, next_pair};
use sp_dd::{Choice, Diagram, Ids, NoMemory, Nodes, Part, Scope, State};
use std::alloc::Global;

/// Two lists of nodes of a scope.
#[derive(Drop)]
pub struct Compared<'a> {
    pub scope: &'a Scope,
    pub left: &'a Nodes,
    pub right: &'a Nodes,
}

/// The first point in slot order at which `f` is above `g`, or nothing where it is above nowhere. The search stops at that point.
pub fn below(alloc: Global, f: &Diagram, g: &Diagram) -> Result<Option<Ids>, NoMemory>
    requires { f.now.shape ≡ g.now.shape }
    ensures { IfOk result (λ answer. MatchOption answer (IsAtMost f.now g.now) (λ point. IsFirstAbove f.now g.now point)) }
{
    let compared = Compared {
        scope: f.scope(),
        left: f.nodes(),
        right: g.nodes(),
    };
    let start = State {
        left: f.root(),
        right: g.root(),
        choice: Choice::Open,
    };
    let mut known = PairTable::new(alloc, 0);
    let mut point = origin();
    if !first_above(&compared, &mut known, &mut point, start, 0)? {
        return Ok(None);
    }
    let ids = first_of(alloc, &point, f.scope().slots())?;
    Ok(Some(ids))
}

/// The first value of each slot.
fn origin() -> [u64; 56]
    ensures { result ≡ replicate 56 0 }
{
    [0; 56]
}

/// So many numbers of a list.
fn first_of(alloc: Global, point: &[u64], count: u64) -> Result<Ids, NoMemory>
    requires { count ≤ length point.now }
    ensures { IfOk result (λ ids. ids ≡ take count point.now) }
{
    let mut ids = Ids::new(alloc);
    for slot in 0..count {
        ids.push(point[slot as usize])?;
    }
    Ok(ids)
}

/// Whether the first part is above the second somewhere, and the first point in slot order where it is.
fn first_above(
    compared: &Compared,
    known: &mut PairTable,
    point: &mut [u64],
    state: State,
    from: u64,
) -> Result<bool, NoMemory>
    requires scope { IsScope compared.now.scope.now }
    requires pair { IsPair compared.now.scope.now.sizes compared.now.left.now compared.now.right.now state }
    requires from { from ≤ least_slot compared.now.scope.now.sizes compared.now.left.now compared.now.right.now state }
    requires long { length compared.now.scope.now.sizes ≤ length point.old }
    requires blank { (i : ℕ) → slice_index_or point.old i 0 ≡ 0 }
    requires known { AreNowhere compared.now.scope.now.sizes compared.now.left.now compared.now.right.now known.old }
    ensures yes { IfOk result (λ is_above. OnTrue is_above (IsFirstFrom compared.now.scope.now.sizes compared.now.left.now compared.now.right.now state from (values_in point.new))) }
    ensures no { IfOk result (λ is_above. OnFalse is_above (AreBelow compared.now.scope.now.sizes compared.now.left.now compared.now.right.now state)) }
    ensures blank { IfOk result (λ is_above. OnFalse is_above ((i : ℕ) → slice_index_or point.new i 0 ≡ 0)) }
    ensures known { IfOk result (λ is_above. OnFalse is_above (AreNowhere compared.now.scope.now.sizes compared.now.left.now compared.now.right.now known.new)) }
{
    let slot = first_slot(compared.scope, compared.left, compared.right, &state);
    if slot == compared.scope.slots() {
        let is_above = is_less(leaf_in(state.right), leaf_in(state.left));
        return Ok(is_above);
    }
    if is_known(compared, known, &state) {
        return Ok(false);
    }
    for value in 0..compared.scope.size(slot) {
        let next = next_pair(compared.left, compared.right, &state, slot, value);
        if first_above(compared, known, point, next, slot + 1)? {
            point[slot as usize] = value;
            return Ok(true);
        }
    }
    remember(compared, known, &state)?;
    Ok(false)
}

/// Whether several ways may lead to a pair. Nothing but time rests on the answer.
#[inline(always)]
fn may_recur(compared: &Compared, state: &State) -> bool {
    compared.left.is_shared(state.left) || compared.right.is_shared(state.right)
}

/// Whether it is remembered that the first part of a pair is above the second nowhere. What a leaf isn't above, no lesser leaf is.
#[inline(always)]
fn is_known(compared: &Compared, known: &PairTable, state: &State) -> bool
    requires left { IsBefore (length compared.now.left.now) state.now.left }
    requires right { IsBefore (length compared.now.right.now) state.now.right }
    requires known { AreNowhere compared.now.scope.now.sizes compared.now.left.now compared.now.right.now known.now }
    ensures { OnTrue result (AreBelow compared.now.scope.now.sizes compared.now.left.now compared.now.right.now state.now) }
{
    if !may_recur(compared, state) {
        return false;
    }
    let left = key_in(compared.left, state.left);
    let right = key_in(compared.right, state.right);
    match known.find(left, right) {
        None => false,
        Some(number) => match (state.left, state.right) {
            (Part::Leaf(_), Part::Leaf(_)) => false,
            (Part::Leaf(value), Part::At(_)) => !is_less(number, value),
            (Part::At(_), Part::Leaf(value)) => !is_less(value, number),
            (Part::At(_), Part::At(_)) => true,
        },
    }
}

/// Remembers that the first part of a pair is above the second nowhere.
#[inline(always)]
fn remember(compared: &Compared, known: &mut PairTable, state: &State) -> Result<(), NoMemory>
    requires left { IsBefore (length compared.now.left.now) state.now.left }
    requires right { IsBefore (length compared.now.right.now) state.now.right }
    requires open { least_slot compared.now.scope.now.sizes compared.now.left.now compared.now.right.now state.now < length compared.now.scope.now.sizes }
    requires below { AreBelow compared.now.scope.now.sizes compared.now.left.now compared.now.right.now state.now }
    requires known { AreNowhere compared.now.scope.now.sizes compared.now.left.now compared.now.right.now known.old }
    ensures { OnOk result (AreNowhere compared.now.scope.now.sizes compared.now.left.now compared.now.right.now known.new) }
{
    if !may_recur(compared, state) {
        return Ok(());
    }
    let left = key_in(compared.left, state.left);
    let right = key_in(compared.right, state.right);
    known.keep(left, right, leaf_of_pair(state.left, state.right))?;
    Ok(())
}

/// The leaf of a pair with one.
#[inline(always)]
fn leaf_of_pair(left: Part, right: Part) -> i128
    ensures { result ≡ leaf_number left right }
{
    match left {
        Part::Leaf(value) => value,
        Part::At(_) => leaf_in(right),
    }
}

#[inline(always)]
fn is_less(x: i128, y: i128) -> bool
    ensures yes { OnTrue result (x <ℤ y) }
    ensures no { OnFalse result (y ≤ℤ x) }
{
    x < y
}
