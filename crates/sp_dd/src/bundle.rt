//! A walk through a function that is given by bundles of parts.
ghost use Rattle.std.specs.Prelude.{◌≡◌, ℕ, suc, List, ◌<◌, ◌≤◌, ◌∷◌, [], ◌++◌, length, take, drop, slice_index, IfOk, OnOk, ℤ};
ghost use Rattle.sp_dd.specs.NodeLists.{Node, made_node};
ghost use Rattle.sp_dd.specs.Walks.{IsFromSlot, IsWalked, ArePositive};
ghost use Rattle.sp_dd.specs.Sources.{IfLeaf, IfBranch};
ghost use Rattle.sp_dd.specs.Bundles.{AreBundlesKnown, IsNextBundle};

use crate::NoMemory;
use crate::bundle_memo::{BundleMemo, hash_of};
use crate::draft::Draft;
use crate::part::Part;
use crate::slots::Scope;
use crate::walk::Step;
use crate::words::Words;

/// What a bundle is, and where it begins in the list on whose end it stands.
#[derive(Clone, Copy)]
pub struct Bundle {
    pub start: usize,
    pub step: Step,
}

/// A function by its bundles: lists of parts, each with the slot on which it branches. In clauses a bundle is a node. `meaning`
/// says what function of a point (as a function from slots to values) a bundle stands for, and `IsBundle` which there are.
pub trait BundleSource {
    ghost sizes: { Self → List ℕ };

    ghost meaning: { Self → Node → (ℕ → ℕ) → ℤ };

    ghost IsBundle: { Self → Node → Type 0 };

    /// The bundle where the slot of the one that begins at `start` has a value, at the end of the list, maybe behind others.
    fn next(
        &self,
        list: &mut Vec<Part>,
        start: usize,
        at: u64,
        value: u64,
    ) -> Result<Bundle, NoMemory>
        requires start { start ≤ length list.old.items }
        requires bundle { IsBundle self.now (made_node at (drop start list.old.items)) }
        requires within { at < length (sizes self.now) }
        requires value { value < slice_index (sizes self.now) at }
        ensures kept { OnOk result (take (length list.old.items) list.new.items ≡ list.old.items) }
        ensures start { IfOk result (λ b. b.start ≤ length list.new.items) }
        ensures leaf { IfOk result (λ b. IfLeaf b.step (λ z. (π : ℕ → ℕ) → π at ≡ value → meaning self.now (made_node at (drop start list.old.items)) π ≡ z)) }
        ensures branch { IfOk result (λ b. IfBranch b.step (λ s. IsNextBundle (sizes self.now) (meaning self.now) (IsBundle self.now) (made_node at (drop start list.old.items)) value (made_node s (drop b.start list.new.items)))) };
}

/// Adds the nodes of the function of the bundle at the end of `list` to a draft, and the function's part to `stack`, which is room
/// for the parts of nodes in the making.
pub fn walk_bundle<S: BundleSource>(
    scope: &Scope,
    source: &S,
    memo: &mut BundleMemo,
    draft: &mut Draft,
    stack: &mut Words,
    list: &mut Vec<Part>,
    start: usize,
    slot: u64,
) -> Result<(), NoMemory>
    requires start { start ≤ length list.old.items }
    requires bundle { S.IsBundle source.now (made_node slot (drop start list.old.items)) }
    requires sizes { S.sizes source.now ≡ scope.now.sizes }
    requires positive { ArePositive scope.now.sizes }
    requires within { slot < length scope.now.sizes }
    requires later { IsFromSlot slot (S.meaning source.now (made_node slot (drop start list.old.items))) }
    requires known { AreBundlesKnown scope.now.sizes (S.meaning source.now) memo.old.bundles memo.old.parts draft.old }
    ensures made { OnOk result (IsWalked scope.now.sizes (S.meaning source.now (made_node slot (drop start list.old.items))) draft.old draft.new stack.old stack.new) }
    ensures known { OnOk result (AreBundlesKnown scope.now.sizes (S.meaning source.now) memo.new.bundles memo.new.parts draft.new) }
    ensures list { OnOk result (list.new.items ≡ list.old.items) }
{
    let hash = hash_of(slot, &list[start..]);
    if let Some(part) = memo.find(hash, slot, &list[start..]) {
        stack.push(part)?;
        return Ok(());
    }
    let end = list.len();
    let first = stack.len();
    for value in 0..scope.size(slot) {
        let next = source.next(list, start, slot, value)?;
        match next.step {
            Step::Leaf(leaf) => stack.push(Part::Leaf(leaf))?,
            Step::Branch(later) => walk_bundle(
                scope, source, memo, draft, stack, list, next.start, later,
            )?,
        }
        list.truncate(end);
    }
    let part = draft.join(slot, stack, first)?;
    stack.truncate(first);
    stack.push(part)?;
    memo.keep(hash, slot, list, start, part)?;
    Ok(())
}
