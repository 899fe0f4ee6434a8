//! A function where variables that follow one another have one value in both their slots.

ghost use Rattle.std.specs.Prelude.{◌≡◌, ◌<◌, ◌≤◌, ◌-◌, ◌⊎◌, ℕ, length, IfOk};
ghost use Rattle.std.specs.Bool.{OnTrue, OnFalse};
ghost use Rattle.sp_dd.specs.Func.{IsIndependentOf};
ghost use Rattle.sp_dd.specs.Ordered.{height};
ghost use Rattle.sp_diagonals.specs.Diagonals.{offset, filled_slot, on_diagonals as joined};
ghost use Rattle.sp_diagonals.specs.Walks.{slot_read, joined_part, joined_slot, IsJoinedPart};

use crate::parts::cofactor;
use sp_dd::{Choice, Diagram, NoMemory, Nodes, Part, Scope, Source, State, Step};
use std::alloc::Global;

/// The slot of a state variable that is read for both: its value now, or its next value.
#[derive(Clone, Copy, Debug, Drop)]
pub enum Side {
    State,
    Next,
}

/// A list of nodes of a scope, where each slot from `low` on and before `high` has the value of one slot of its variable.
#[derive(Drop)]
pub struct OnDiagonals<'a> {
    pub scope: &'a Scope,
    pub nodes: &'a Nodes,
    /// The place of the slot that is read, among the two of a variable.
    pub offset: u64,
    pub low: u64,
    pub high: u64,
}

impl<'a> Source for OnDiagonals<'a> {
    ghost sizes = { λ x. x.scope.now.sizes };

    ghost meaning = { λ x q. joined_part x.offset x.low x.high x.nodes.now q.left };

    ghost IsState = { λ x q. IsJoinedPart x.scope.now.sizes x.offset x.low x.high x.nodes.now q.left };

    ghost slot = { λ x q. joined_slot x.scope.now.sizes x.offset x.low x.high x.nodes.now q.left };

    ghost height = { λ x q. height q.left };

    fn room(&self) -> usize {
        self.nodes.len()
    }

    #[inline(always)]
    fn is_recurring(&self, state: &State) -> bool {
        self.nodes.is_shared(state.left)
    }

    #[inline(always)]
    fn step(&self, state: State) -> Step {
        match state.left {
            Part::Leaf(value) => Step::Leaf(value),
            Part::At(i) => {
                let slot = read_slot(self.offset, self.low, self.high, self.nodes.slot(i));
                Step::Branch(slot)
            }
        }
    }

    #[inline(always)]
    fn next(&self, state: State, at: u64, value: u64) -> State {
        let mut left = state.left;
        if is_inside(self.low, self.high, at) {
            let first = at - at % 2;
            left = cofactor(self.nodes, first, value, left);
            left = cofactor(self.nodes, first + 1, value, left);
        } else {
            left = cofactor(self.nodes, at, value, left);
        }
        State {
            left,
            right: state.right,
            choice: state.choice,
        }
    }
}

/// Whether a slot stands from `low` on and before `high`.
#[inline(always)]
fn is_inside(low: u64, high: u64, slot: u64) -> bool
    ensures yes { OnTrue result ((low ≤ slot) × (slot < high)) }
    ensures no { OnFalse result ((slot < low) ⊎ (high ≤ slot)) }
{
    if slot < low {
        return false;
    }
    slot < high
}

/// The slot that is read for a slot.
#[inline(always)]
fn read_slot(offset: u64, low: u64, high: u64, slot: u64) -> u64
    requires { offset ≤ 1 }
    ensures { result ≡ slot_read offset low high slot }
{
    if slot < low {
        return slot;
    }
    if slot < high {
        return slot - slot % 2 + offset;
    }
    slot
}

/// `f` where each state variable from `from` on and before `to` has one value in both its slots, that of the slot of this side, in one
/// walk.
pub fn on_diagonals(
    alloc: Global,
    f: &Diagram,
    side: Side,
    from: u64,
    to: u64,
) -> Result<Diagram, NoMemory>
    requires order { from ≤ to }
    requires within { to ≤ f.now.shape.variables }
    ensures { IfOk result (λ r. r ≡ joined side from (to - from) f.now) }
{
    let scope = f.scope();
    let _ = scope.slots();
    if !is_filled(f, side, from, to) {
        let same = f.copied(alloc)?;
        return Ok(same);
    }
    let source = OnDiagonals {
        scope,
        nodes: f.nodes(),
        offset: offset_of(side),
        low: 2 * from,
        high: 2 * to,
    };
    let start = State {
        left: f.root(),
        right: Part::Leaf(0),
        choice: Choice::Open,
    };
    let made = Diagram::from_source(alloc, scope, &source, start)?;
    Ok(made)
}

/// Whether a function depends on a slot that takes a value: one of the variables from `from` on and before `to`.
fn is_filled(f: &Diagram, side: Side, from: u64, to: u64) -> bool
    requires { to ≤ f.now.shape.variables }
    ensures { OnFalse result ((v : ℕ) → from ≤ v → v < to → IsIndependentOf f.now (filled_slot side v)) }
{
    let _ = f.scope();
    let place = 1 - offset_of(side);
    for variable in from..to {
        if f.depends(2 * variable + place) {
            return true;
        }
    }
    false
}

fn offset_of(side: Side) -> u64
    ensures value { result ≡ offset side }
    ensures small { result ≤ 1 }
{
    match side {
        Side::State => 0,
        Side::Next => 1,
    }
}
