//! A function of points as a reduced ordered decision diagram.
ghost use Rattle.std.specs.Prelude.{◌≡◌, ◌≢◌, ℕ, ◌<◌, ◌≤◌, ◌↔◌, IsTrue, length, drop, slice_index, IfOk};
ghost use Rattle.std.specs.Bool.{OnTrue, OnFalse};
ghost use Rattle.sp_dd.specs.Func.{IsScope, IsFunc, IsPointOf, DependsOn, IsIndependentOf, value_of, function_of};
ghost use Rattle.sp_dd.specs.Ordered.{at, node_at, IsOrdered, IsBefore};
ghost use Rattle.sp_dd.specs.NodeLists.{made_node};
ghost use Rattle.sp_dd.specs.Walks.{IsFromSlot};
ghost use Rattle.sp_dd.specs.Diagrams.{node_list, root_part, IsReduced, HasSlot};

use crate::NoMemory;
use crate::bundle::{BundleSource, walk_bundle};
use crate::bundle_memo::BundleMemo;
use crate::draft::Draft;
use crate::leaves::part_of;
use crate::memo::{Memo, State};
use crate::nodes::Nodes;
use crate::part::Part;
use crate::shared::{Shared, share};
use crate::short::{FEW, Making, Stopped, walk_short};
use crate::slots::Scope;
use crate::walk::{Source, Step, walk_branch};
use crate::words::Words;
use std::alloc::Global;
use std::marker::Model;

/// A function of the points of a scope as a reduced ordered decision diagram (Bryant 1986) with multi-valued branches and
/// whole numbers as leaves. Its nodes stand in the order in which a walk from the root leaves them, which goes into the parts
/// in order, depth first; a constant function has a leaf for its root and no nodes. So a function has one diagram.
#[derive(Drop)]
pub struct Diagram {
    scope: Scope,
    nodes: Shared,
    root: Part,
}

/// Room for the parts of nodes in the making.
const STACK: usize = 64;

impl Model for Diagram {
    ghost use Rattle.sp_dd.specs.Func.{Func};
    ghost use Rattle.sp_dd.specs.Diagrams.{function_at, IsDiagram};

    ghost Value = { Func };

    ghost view = { λ d. function_at d.scope d.nodes d.root };

    ghost invariant = { λ d. IsDiagram d.scope d.nodes d.root };
}

impl Diagram {
    /// The diagram of the function that a state of a source means.
    pub fn from_source<S: Source>(
        alloc: Global,
        scope: &Scope,
        source: &S,
        state: State,
    ) -> Result<Diagram, NoMemory>
        requires state { S.IsState source.now state }
        requires sizes { S.sizes source.now ≡ scope.now.sizes }
        ensures { IfOk result (λ h. h ≡ function_of scope.now (λ p. S.meaning source.now state (at p))) }
    {
        let _ = scope.slots();
        match source.step(state) {
            Step::Leaf(value) => {
                let nodes = Shared::new(alloc, Nodes::new(alloc))?;
                Ok(Diagram {
                    scope: *scope,
                    nodes,
                    root: Part::Leaf(value),
                })
            }
            Step::Branch(slot) => {
                let room = source.room();
                if room > FEW {
                    return from_branch(alloc, scope, source, state, slot, room);
                }
                match from_short(alloc, scope, source, state, slot, room) {
                    Ok(made) => Ok(made),
                    Err(Stopped) => from_branch(alloc, scope, source, state, slot, room),
                }
            }
        }
    }

    /// The diagram of the function that a bundle at the end of a list means.
    pub fn from_bundle<S: BundleSource>(
        alloc: Global,
        scope: &Scope,
        source: &S,
        list: &mut Vec<Part>,
        start: usize,
        slot: u64,
    ) -> Result<Diagram, NoMemory>
        requires start { start ≤ length list.old.items }
        requires bundle { S.IsBundle source.now (made_node slot (drop start list.old.items)) }
        requires sizes { S.sizes source.now ≡ scope.now.sizes }
        requires within { slot < length scope.now.sizes }
        requires later { IsFromSlot slot (S.meaning source.now (made_node slot (drop start list.old.items))) }
        ensures { IfOk result (λ h. h ≡ function_of scope.now (λ p. S.meaning source.now (made_node slot (drop start list.old.items)) (at p))) }
    {
        let _ = scope.slots();
        let mut memo = BundleMemo::new(alloc);
        let mut draft = Draft::new(alloc, 0)?;
        let mut stack = Words::with_room(alloc, STACK)?;
        walk_bundle(
            scope, source, &mut memo, &mut draft, &mut stack, list, start, slot,
        )?;
        let root = stack.get(0);
        let nodes = Shared::new(alloc, draft.finish())?;
        Ok(Diagram {
            scope: *scope,
            nodes,
            root,
        })
    }

    /// The scope of the function's points.
    pub fn scope(&self) -> &Scope
        ensures value { result.now ≡ self.now.shape }
        ensures known { IsScope self.now.shape }
        ensures determined { IsFunc self.now }
    {
        &self.scope
    }

    /// The nodes, each after its parts.
    pub fn nodes(&self) -> &Nodes
        ensures { result.now ≡ node_list self.now }
    {
        self.nodes.nodes()
    }

    /// The root: a leaf, or the place of a node.
    pub fn root(&self) -> Part
        ensures { result ≡ root_part self.now }
    {
        self.root
    }

    /// The same function once more. The list of nodes is shared, so that a copy costs the same whatever their number. It may be
    /// refused as a growth can.
    pub fn copied(&self, _alloc: Global) -> Result<Diagram, NoMemory>
        ensures { IfOk result (λ h. h ≡ self.now) }
    {
        let nodes = self.nodes.again()?;
        Ok(Diagram {
            scope: self.scope,
            nodes,
            root: self.root,
        })
    }

    /// The value at a point: one coordinate for each slot. Takes no memory.
    pub fn value_at(&self, point: &[u64]) -> i128
        requires { IsPointOf self.now point.now }
        ensures { result ≡ value_of self.now point.now }
    {
        let mut part = self.root;
        while let Part::At(i) = part {
            part = self.nodes.part(i, coordinate(point, self.nodes.slot(i)));
        }
        match part {
            Part::Leaf(value) => value,
            Part::At(_) => unreachable!(),
        }
    }

    /// Whether two functions are the same. Compares roots and lists of nodes, and takes no memory.
    pub fn same(&self, other: &Diagram) -> bool
        requires { self.now.shape ≡ other.now.shape }
        ensures { IsTrue result ↔ (self.now ≡ other.now) }
    {
        same_lists(
            self.root,
            self.nodes.nodes(),
            other.root,
            other.nodes.nodes(),
        )
    }

    /// Whether the function differs at two points that differ in that slot alone. Takes no memory.
    pub fn depends(&self, slot: u64) -> bool
        requires { slot < length self.now.shape.sizes }
        ensures yes { OnTrue result (DependsOn self.now slot) }
        ensures no { OnFalse result (IsIndependentOf self.now slot) }
    {
        has_slot(self.nodes.nodes(), slot)
    }
}

/// The diagram of the function that a state of a source means, which branches on a slot, by a short walk.
#[inline(always)]
fn from_short<S: Source>(
    alloc: Global,
    scope: &Scope,
    source: &S,
    state: State,
    slot: u64,
    room: usize,
) -> Result<Diagram, Stopped>
    requires state { S.IsState source.now state }
    requires sizes { S.sizes source.now ≡ scope.now.sizes }
    requires slot { slot ≡ S.slot source.now state }
    requires within { slot < length scope.now.sizes }
    requires later { IsFromSlot slot (S.meaning source.now state) }
    ensures { IfOk result (λ h. h ≡ function_of scope.now (λ p. S.meaning source.now state (at p))) }
{
    let _ = scope.slots();
    let draft = Draft::small(alloc, room)?;
    let mut making = Making {
        draft,
        tables: None,
        left: FEW,
    };
    let word = walk_short(scope, source, &mut making, state, slot)?;
    let Making { draft, .. } = making;
    let nodes = share(alloc, draft.finish())?;
    Ok(Diagram {
        scope: *scope,
        nodes,
        root: part_of(word),
    })
}

/// The diagram of the function that a state of a source means, which branches on a slot, with room for so many nodes.
#[inline(never)]
fn from_branch<S: Source>(
    alloc: Global,
    scope: &Scope,
    source: &S,
    state: State,
    slot: u64,
    room: usize,
) -> Result<Diagram, NoMemory>
    requires state { S.IsState source.now state }
    requires sizes { S.sizes source.now ≡ scope.now.sizes }
    requires slot { slot ≡ S.slot source.now state }
    requires within { slot < length scope.now.sizes }
    requires later { IsFromSlot slot (S.meaning source.now state) }
    ensures { IfOk result (λ h. h ≡ function_of scope.now (λ p. S.meaning source.now state (at p))) }
{
    let _ = scope.slots();
    let mut memo = Memo::new(alloc, room)?;
    let mut draft = Draft::new(alloc, room)?;
    let mut stack = Words::with_room(alloc, STACK)?;
    walk_branch(
        scope, source, &mut memo, &mut draft, &mut stack, state, slot,
    )?;
    let root = stack.get(0);
    let nodes = share(alloc, draft.finish())?;
    Ok(Diagram {
        scope: *scope,
        nodes,
        root,
    })
}

/// A law of each diagram: its nodes are ordered and reduced, and each stands where a walk from the root leaves it.
pub fn reduced_law(f: &Diagram)
    ensures ordered { IsOrdered f.now.shape.sizes (node_list f.now) }
    ensures root { IsBefore (length (node_list f.now)) (root_part f.now) }
    ensures reduced { IsReduced (node_list f.now) }
{
    let _ = f.nodes();
}

/// A law of two diagrams: they are of one function exactly where their roots and their lists of nodes are equal.
pub fn one_list_law(f: &Diagram, g: &Diagram)
    requires { f.now.shape ≡ g.now.shape }
    ensures { f.now ≡ g.now ↔ ((node_list f.now ≡ node_list g.now) × (root_part f.now ≡ root_part g.now)) }
{
    let _ = f.scope();
    let _ = g.scope();
}

/// Whether two roots and two lists of nodes are one.
fn same_lists(root: Part, nodes: &Nodes, other_root: Part, other_nodes: &Nodes) -> bool
    ensures { IsTrue result ↔ ((nodes.now ≡ other_nodes.now) × (root ≡ other_root)) }
{
    root.is_same(&other_root) && nodes.is_same(other_nodes)
}

fn coordinate(point: &[u64], slot: u64) -> u64
    requires { slot < length point.now }
    ensures { result ≡ slice_index point.now slot }
{
    point[slot as usize]
}

/// Whether a node has that slot.
fn has_slot(nodes: &Nodes, slot: u64) -> bool
    ensures yes { OnTrue result (HasSlot nodes.now slot) }
    ensures no { OnFalse result ((k : ℕ) → k < length nodes.now → (node_at nodes.now k).slot ≢ slot) }
{
    for i in 0..nodes.len() {
        if nodes.slot(i) == slot {
            return true;
        }
    }
    false
}
