//! The least and the greatest value of a function.
ghost use Rattle.std.specs.Prelude.{◌≡◌, ◌⊎◌, ℕ, ℤ, ◌<◌, length};
ghost use Rattle.sp_dd.specs.declared.part.Part.TheVariants.{Leaf};
ghost use Rattle.std.specs.Bool.{OnTrue, OnFalse};
ghost use Rattle.sp_dd.specs.Ordered.{node_at, part_at};
ghost use Rattle.sp_dd.specs.Operations.{IsLeast, IsGreatest};
ghost use Rattle.sp_ddops.specs.Best.{IsBest, HasLeaf, IsExtreme};

use crate::cofactor::leaf_in;
use sp_dd::{Diagram, Nodes, Part, reduced_law};

/// The least value over all points. Takes no memory.
pub fn least(f: &Diagram) -> i128
    ensures { IsLeast f.now result }
{
    extreme(f, false)
}

/// The greatest value over all points. Takes no memory.
pub fn greatest(f: &Diagram) -> i128
    ensures { IsGreatest f.now result }
{
    extreme(f, true)
}

/// The greatest value, or the least.
fn extreme(f: &Diagram, is_greatest: bool) -> i128
    ensures { IsExtreme is_greatest f.now result }
{
    let scope = f.scope();
    reduced_law(f);
    let nodes = f.nodes();
    let mut best = match f.root() {
        Part::Leaf(value) => return value,
        Part::At(_) => leaf_in(nodes.part(0, 0)),
    };
    for at in 0..nodes.len() {
        let count = scope.size(nodes.slot(at));
        best = best_of(nodes, at, count, is_greatest, best);
    }
    best
}

/// The best of a value and the leaves among a node's parts.
fn best_of(nodes: &Nodes, at: usize, count: u64, is_greatest: bool, first: i128) -> i128
    requires at { at < length nodes.now }
    requires count { count ≡ length (node_at nodes.now at).parts }
    ensures kept { IsBest is_greatest result first }
    ensures all { (v : ℕ) (z : ℤ) → v < count → part_at nodes.now at v ≡ Leaf z → IsBest is_greatest result z }
    ensures from { (result ≡ first) ⊎ HasLeaf (node_at nodes.now at).parts result }
{
    let mut best = first;
    for value in 0..count {
        best = better(is_greatest, best, nodes.part(at, value));
    }
    best
}

/// The better of a value and a part's leaf.
fn better(is_greatest: bool, best: i128, part: Part) -> i128
    ensures kept { IsBest is_greatest result best }
    ensures leaf { (z : ℤ) → part ≡ Leaf z → IsBest is_greatest result z }
    ensures from { (result ≡ best) ⊎ (part ≡ Leaf result) }
{
    match part {
        Part::Leaf(value) => {
            if is_better(is_greatest, value, best) {
                value
            } else {
                best
            }
        }
        Part::At(_) => best,
    }
}

/// Whether the first value is better than the second, or as good.
fn is_better(is_greatest: bool, x: i128, y: i128) -> bool
    ensures yes { OnTrue result (IsBest is_greatest x y) }
    ensures no { OnFalse result (IsBest is_greatest y x) }
{
    if is_greatest { y <= x } else { x <= y }
}
