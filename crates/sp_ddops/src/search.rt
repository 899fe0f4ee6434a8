//! The first point at which a function isn't a number.
ghost use Rattle.std.specs.Prelude.{◌≡◌, ◌≢◌, ℕ, ◌<◌, ◌≤◌, length, IfOk, MatchOption};
ghost use Rattle.sp_dd.specs.declared.part.Part.TheVariants.{Leaf};
ghost use Rattle.sp_dd.specs.Func.{Everywhere, IsScope};
ghost use Rattle.sp_dd.specs.Operations.{IsFirstApart};
ghost use Rattle.sp_dd.specs.Ordered.{node_at, part_at, IsBefore, IsOrdered};
ghost use Rattle.sp_dd.specs.Diagrams.{IsReduced};
ghost use Rattle.sp_ddops.specs.Zero.{IsTowards};

use crate::cofactor::cofactor;
use sp_dd::{Diagram, Ids, NoMemory, Nodes, Part, Scope, reduced_law};
use std::alloc::Global;

/// The first point in slot order at which `f` isn't that number, or nothing where it is everywhere. Looks at the nodes on the way to
/// that point alone: a node is never one number everywhere.
pub fn first_apart(alloc: Global, f: &Diagram, v: i128) -> Result<Option<Ids>, NoMemory>
    ensures { IfOk result (λ answer. MatchOption answer (Everywhere f.now (λ u. u ≡ v)) (λ point. IsFirstApart f.now v point)) }
{
    let scope = *f.scope();
    if f.root().is_same(&Part::Leaf(v)) {
        return Ok(None);
    }
    reduced_law(f);
    let nodes = f.nodes();
    let mut point = Ids::new(alloc);
    let mut part = f.root();
    for slot in 0..scope.slots() {
        let value = value_towards(&scope, nodes, slot, part, v);
        point.push(value)?;
        part = cofactor(nodes, slot, value, part);
    }
    Ok(Some(point))
}

/// The first value of a slot for which a part isn't that leaf.
fn value_towards(scope: &Scope, nodes: &Nodes, slot: u64, part: Part, v: i128) -> u64
    requires slot { slot < length scope.now.sizes }
    requires before { IsBefore (length nodes.now) part }
    requires ordered { IsOrdered scope.now.sizes nodes.now }
    requires reduced { IsReduced nodes.now }
    ensures { IsTowards v nodes.now slot part result }
{
    match part {
        Part::Leaf(_) => 0,
        Part::At(i) => {
            if nodes.slot(i) == slot {
                first_other(nodes, i, scope.size(slot), v)
            } else {
                0
            }
        }
    }
}

/// The first value of a node's slot that leads to another part than that leaf, or how many values there are.
fn first_other(nodes: &Nodes, at: usize, count: u64, v: i128) -> u64
    requires at { at < length nodes.now }
    requires count { count ≡ length (node_at nodes.now at).parts }
    ensures within { result ≤ count }
    ensures before { (u : ℕ) → u < result → part_at nodes.now at u ≡ Leaf v }
    ensures other { result < count → part_at nodes.now at result ≢ Leaf v }
{
    for value in 0..count {
        if !nodes.part(at, value).is_same(&Part::Leaf(v)) {
            return value;
        }
    }
    count
}
