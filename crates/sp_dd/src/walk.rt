//! A walk through a function that is given by states.
ghost use Rattle.std.specs.Prelude.{◌≡◌, ℕ, suc, List, ◌<◌, length, slice_index, OnOk, ℤ};
ghost use Rattle.sp_dd.specs.Walks.{IsFromSlot, IsWalked, ArePositive};
ghost use Rattle.sp_dd.specs.Sources.{IfLeaf, IfBranch};
ghost use Rattle.sp_dd.specs.Kept.{AreKnown};
ghost use Rattle.sp_dd.specs.declared.memo.State.{State};

use crate::NoMemory;
use crate::draft::Draft;
use crate::memo::{Memo, State};
use crate::part::Part;
use crate::slots::Scope;
use crate::words::Words;

/// What a state is: a leaf, or a branch on a slot.
#[derive(Clone, Copy)]
pub enum Step {
    Leaf(i128),
    Branch(u64),
}

/// A function by its states. `meaning` says what function of a point (as a function from slots to values) a state stands for,
/// `IsState` which states there are, `slot` on which slot a state branches first, and `height` falls from a state to the next.
pub trait Source {
    ghost sizes: { Self → List ℕ };

    ghost meaning: { Self → State → (ℕ → ℕ) → ℤ };

    ghost IsState: { Self → State → Type 0 };

    ghost slot: { Self → State → ℕ };

    ghost height: { Self → State → ℕ };

    /// For how many states it may be well to have room at first.
    fn room(&self) -> usize;

    /// Whether a walk may come to a state again. One to which it comes once isn't remembered. Nothing but time rests on the answer.
    fn is_recurring(&self, _state: &State) -> bool {
        true
    }

    /// Whether a state is a leaf, or on which slot it branches.
    fn step(&self, state: State) -> Step
        requires { IsState self.now state }
        ensures leaf { IfLeaf result (λ z. (π : ℕ → ℕ) → meaning self.now state π ≡ z) }
        ensures branch { IfBranch result (λ s. (s ≡ slot self.now state) × (s < length (sizes self.now)) × IsFromSlot s (meaning self.now state)) };

    /// The state where the state's slot has a value.
    fn next(&self, state: State, at: u64, value: u64) -> State
        requires state { IsState self.now state }
        requires slot { at ≡ slot self.now state }
        requires within { at < length (sizes self.now) }
        requires value { value < slice_index (sizes self.now) at }
        ensures state { IsState self.now result }
        ensures smaller { height self.now result < height self.now state }
        ensures later { IsFromSlot (suc at) (meaning self.now result) }
        ensures value { (π : ℕ → ℕ) → π at ≡ value → meaning self.now state π ≡ meaning self.now result π };
}

/// Adds the nodes of the function of a state that branches on a slot to a draft, and the function's part to `stack`, which is room
/// for the parts of nodes in the making.
pub fn walk_branch<S: Source>(
    scope: &Scope,
    source: &S,
    memo: &mut Memo,
    draft: &mut Draft,
    stack: &mut Words,
    state: State,
    slot: u64,
) -> Result<(), NoMemory>
    requires state { S.IsState source.now state }
    requires sizes { S.sizes source.now ≡ scope.now.sizes }
    requires positive { ArePositive scope.now.sizes }
    requires known { AreKnown scope.now.sizes (S.meaning source.now) memo.old draft.old }
    requires slot { slot ≡ S.slot source.now state }
    requires within { slot < length scope.now.sizes }
    requires later { IsFromSlot slot (S.meaning source.now state) }
    ensures made { OnOk result (IsWalked scope.now.sizes (S.meaning source.now state) draft.old draft.new stack.old stack.new) }
    ensures known { OnOk result (AreKnown scope.now.sizes (S.meaning source.now) memo.new draft.new) }
{
    let is_recurring = source.is_recurring(&state);
    if is_recurring {
        if let Some(part) = memo.find(&state, state.hash()) {
            stack.push(part)?;
            return Ok(());
        }
    }
    let start = stack.len();
    for value in 0..scope.size(slot) {
        let next = source.next(state, slot, value);
        match source.step(next) {
            Step::Leaf(leaf) => stack.push(Part::Leaf(leaf))?,
            Step::Branch(later) => walk_branch(scope, source, memo, draft, stack, next, later)?,
        }
    }
    let part = draft.join(slot, stack, start)?;
    stack.truncate(start);
    stack.push(part)?;
    if !is_recurring {
        return Ok(());
    }
    memo.keep(state, state.hash(), part)?;
    Ok(())
}
