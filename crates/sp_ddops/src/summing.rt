//! A sum of products over a slot's values, in one walk whatever their number.
ghost use Rattle.std.specs.Prelude.{◌≡◌, ◌<◌, ◌≤◌, ◌^◌, ◌+ℤ◌, ◌*ℤ◌, unsigned_abs, ◌++◌, ◌∷◌, [], ℕ, length, get_or, take, drop, nat_lt, true, false, IfOk, OnOk};
ghost use Rattle.sp_dd.specs.NodeLists.{made_node};
ghost use Rattle.sp_dd.specs.Func.{function_of};
ghost use Rattle.sp_dd.specs.Ordered.{at, node_at, IsBefore};
ghost use Rattle.sp_dd.specs.Sources.{IfLeaf, IfBranch};
ghost use Rattle.sp_ddops.specs.Cofactors.{leaf_of, cofactor_of};
ghost use Rattle.sp_ddops.specs.Sums.{leaf_total, least_of, pairs_with, cofactors, spread_to, sum_or_floor, sum_meaning, ArePairs, AreLight, IsSumOf, IsSumBundle, IsBundleSum};

use crate::cofactor::{cofactor, leaf_in, slot_in};
use crate::pairs::small_product;
use crate::rows::constant;
use sp_dd::{Bundle, BundleSource, Diagram, NoMemory, Nodes, Part, Scope, Step, TICKS};
use std::alloc::Global;

/// The sum over a slot's values of the products of two functions, in ticks and rounded down where it is a mean. Before the slot a
/// bundle is a pair of parts, behind it the pairs of all values but those whose product is 0.
#[derive(Drop)]
pub struct Summing<'a> {
    pub scope: &'a Scope,
    pub at: u64,
    pub is_mean: bool,
    pub left: &'a Nodes,
    pub right: &'a Nodes,
}

impl<'a> BundleSource for Summing<'a> {
    ghost sizes = { λ x. x.scope.now.sizes };

    ghost meaning = { λ x b. sum_meaning x.is_mean x.scope.now.sizes x.at x.left.now x.right.now (nat_lt b.slot x.at) b.parts };

    ghost IsBundle = { λ x b. IsSumBundle x.scope.now.sizes x.at x.left.now x.right.now b };

    fn next(
        &self,
        list: &mut Vec<Part>,
        start: usize,
        at: u64,
        value: u64,
    ) -> Result<Bundle, NoMemory> {
        let end = list.len();
        push_cofactors(self.left, self.right, list, start, end, at, value)?;
        let bundle = settle(self, list, end, at < self.at)?;
        Ok(bundle)
    }
}

/// The sum over the slot's values of the product of two parts of the lists.
pub fn summed(alloc: Global, sum: &Summing, first: Part, second: Part) -> Result<Diagram, NoMemory>
    requires { IsSumOf sum.now.scope.now.sizes sum.now.at sum.now.left.now sum.now.right.now true (first ∷ second ∷ []) }
    ensures { IfOk result (λ r. r ≡ function_of sum.now.scope.now (λ p. sum_meaning sum.now.is_mean sum.now.scope.now.sizes sum.now.at sum.now.left.now sum.now.right.now true (first ∷ second ∷ []) (at p))) }
{
    let _ = sum.scope.slots();
    let mut list = pair_of(alloc, first, second)?;
    let bundle = settle(sum, &mut list, 0, true)?;
    match bundle.step {
        Step::Leaf(value) => {
            let made = constant(alloc, sum.scope, value)?;
            Ok(made)
        }
        Step::Branch(slot) => {
            let start = bundle.start;
            let made = Diagram::from_bundle(alloc, sum.scope, sum, &mut list, start, slot)?;
            Ok(made)
        }
    }
}

/// A list of two parts.
fn pair_of(alloc: Global, first: Part, second: Part) -> Result<Vec<Part>, NoMemory>
    ensures { IfOk result (λ list. list.items ≡ first ∷ second ∷ []) }
{
    let mut list = Vec::with_capacity(alloc, 64)?;
    list.push(first).map_err(|_| NoMemory)?;
    list.push(second).map_err(|_| NoMemory)?;
    Ok(list)
}

/// What the bundle at the end of a list is. One before the slot is spread over the slot's values as soon as no part branches
/// before the slot.
fn settle(
    sum: &Summing,
    list: &mut Vec<Part>,
    start: usize,
    is_before: bool,
) -> Result<Bundle, NoMemory>
    requires start { start ≤ length list.old.items }
    requires sum { IsSumOf sum.now.scope.now.sizes sum.now.at sum.now.left.now sum.now.right.now is_before (drop start list.old.items) }
    ensures kept { OnOk result (take (length list.old.items) list.new.items ≡ list.old.items) }
    ensures start { IfOk result (λ b. b.start ≤ length list.new.items) }
    ensures leaf { IfOk result (λ b. IfLeaf b.step (λ z. (π : ℕ → ℕ) → sum_meaning sum.now.is_mean sum.now.scope.now.sizes sum.now.at sum.now.left.now sum.now.right.now is_before (drop start list.old.items) π ≡ z)) }
    ensures branch { IfOk result (λ b. IfBranch b.step (λ s. IsBundleSum sum.now.is_mean sum.now.scope.now.sizes sum.now.at sum.now.left.now sum.now.right.now is_before (drop start list.old.items) (made_node s (drop b.start list.new.items)))) }
{
    let slot = least_in(sum, list, start);
    if !is_before {
        return Ok(ended(sum, list, start, slot));
    }
    if slot < sum.at {
        let step = Step::Branch(slot);
        return Ok(Bundle { start, step });
    }
    let end = list.len();
    spread(sum, list, start)?;
    let slot = least_in(sum, list, end);
    Ok(ended(sum, list, end, slot))
}

/// What the bundle behind the slot is that begins at `start`: the sum where all its parts are leaves, else a branch.
fn ended(sum: &Summing, list: &Vec<Part>, start: usize, slot: u64) -> Bundle
    requires start { start ≤ length list.now.items }
    requires sum { IsSumOf sum.now.scope.now.sizes sum.now.at sum.now.left.now sum.now.right.now false (drop start list.now.items) }
    requires slot { slot ≡ least_of (length sum.now.scope.now.sizes) sum.now.left.now sum.now.right.now (drop start list.now.items) }
    ensures start { result.start ≡ start }
    ensures leaf { IfLeaf result.step (λ z. (π : ℕ → ℕ) → sum_meaning sum.now.is_mean sum.now.scope.now.sizes sum.now.at sum.now.left.now sum.now.right.now false (drop start list.now.items) π ≡ z) }
    ensures branch { IfBranch result.step (λ s. IsBundleSum sum.now.is_mean sum.now.scope.now.sizes sum.now.at sum.now.left.now sum.now.right.now false (drop start list.now.items) (made_node s (drop start list.now.items))) }
{
    if slot < sum.scope.slots() {
        let step = Step::Branch(slot);
        return Bundle { start, step };
    }
    let total = total_in(list, start);
    let value = finish(sum.is_mean, total);
    let step = Step::Leaf(value);
    Bundle { start, step }
}

/// Pushes the pairs from `start` on for each value of the slot.
fn spread(sum: &Summing, list: &mut Vec<Part>, start: usize) -> Result<(), NoMemory>
    requires start { start ≤ length list.old.items }
    requires sum { IsSumOf sum.now.scope.now.sizes sum.now.at sum.now.left.now sum.now.right.now true (drop start list.old.items) }
    ensures { OnOk result (list.new.items ≡ list.old.items ++ spread_to sum.now.left.now sum.now.right.now sum.now.at (get_or sum.now.scope.now.sizes sum.now.at 0) (drop start list.old.items)) }
{
    let end = list.len();
    for value in 0..sum.scope.size(sum.at) {
        push_cofactors(sum.left, sum.right, list, start, end, sum.at, value)?;
    }
    Ok(())
}

/// Pushes the pairs from `start` to `end` where a slot has a value.
fn push_cofactors(
    left: &Nodes,
    right: &Nodes,
    list: &mut Vec<Part>,
    start: usize,
    end: usize,
    slot: u64,
    value: u64,
) -> Result<(), NoMemory>
    requires start { start ≤ end }
    requires end { end ≤ length list.old.items }
    requires pairs { ArePairs left.now right.now (drop start (take end list.old.items)) }
    requires left_value { (i : ℕ) → i < length left.now → (node_at left.now i).slot ≡ slot → value < length (node_at left.now i).parts }
    requires right_value { (i : ℕ) → i < length right.now → (node_at right.now i).slot ≡ slot → value < length (node_at right.now i).parts }
    ensures { OnOk result (list.new.items ≡ list.old.items ++ cofactors left.now right.now slot value (drop start (take end list.old.items))) }
{
    let mut i = start;
    while end - i > 1 {
        let first = cofactor(left, slot, value, list[i]);
        let second = list[i + 1];
        push_pair(right, list, slot, value, first, second)?;
        i += 2;
    }
    Ok(())
}

/// Pushes a part with the part of another list where a slot has a value, unless their product is 0. A part times 0 isn't looked up.
#[inline(always)]
fn push_pair(
    right: &Nodes,
    list: &mut Vec<Part>,
    slot: u64,
    value: u64,
    first: Part,
    second: Part,
) -> Result<(), NoMemory>
    requires before { IsBefore (length right.now) second }
    requires value { (i : ℕ) → i < length right.now → (node_at right.now i).slot ≡ slot → value < length (node_at right.now i).parts }
    ensures { OnOk result (list.new.items ≡ list.old.items ++ pairs_with first (cofactor_of right.now slot value second) []) }
{
    let zero = Part::Leaf(0);
    if first.is_same(&zero) {
        return Ok(());
    }
    let second = cofactor(right, slot, value, second);
    if second.is_same(&zero) {
        return Ok(());
    }
    list.push(first).map_err(|_| NoMemory)?;
    list.push(second).map_err(|_| NoMemory)?;
    Ok(())
}

/// The first slot on which a part from `start` on branches, or the number of slots.
fn least_in(sum: &Summing, list: &Vec<Part>, start: usize) -> u64
    requires start { start ≤ length list.now.items }
    requires pairs { ArePairs sum.now.left.now sum.now.right.now (drop start list.now.items) }
    ensures { result ≡ least_of (length sum.now.scope.now.sizes) sum.now.left.now sum.now.right.now (drop start list.now.items) }
{
    let count = sum.scope.slots();
    let end = list.len();
    let mut least = count;
    let mut i = start;
    while end - i > 1 {
        let first = slot_in(sum.left, list[i], count);
        let second = slot_in(sum.right, list[i + 1], count);
        least = least.min(first).min(second);
        i += 2;
    }
    least
}

/// The sum of the products of the pairs of leaves from `start` on.
fn total_in(list: &Vec<Part>, start: usize) -> i128
    requires start { start ≤ length list.now.items }
    requires few { length (drop start list.now.items) ≤ 128 }
    requires light { AreLight (drop start list.now.items) }
    ensures value { result ≡ leaf_total (drop start list.now.items) }
{
    let end = list.len();
    let mut sum = 0;
    let mut i = start;
    while end - i > 1 {
        sum = plus_product(sum, list[i], list[i + 1]);
        i += 2;
    }
    sum
}

/// A sum and the product of two leaves.
#[inline(always)]
fn plus_product(sum: i128, first: Part, second: Part) -> i128
    requires sum { unsigned_abs sum ≤ 2 ^ 110 }
    requires product { unsigned_abs (leaf_of first *ℤ leaf_of second) ≤ 2 ^ 100 }
    ensures { result ≡ sum +ℤ (leaf_of first *ℤ leaf_of second) }
{
    sum + small_product(leaf_in(first), leaf_in(second))
}

/// A sum as it is, or its floor in ticks.
fn finish(is_mean: bool, total: i128) -> i128
    ensures { result ≡ sum_or_floor is_mean total }
{
    if is_mean {
        total.div_euclid(TICKS)
    } else {
        total
    }
}
