//! A finished list of nodes that several owners share.
ghost use Rattle.std.specs.Prelude.{◌≡◌, ◌<◌, IfOk, length};
ghost use Rattle.sp_dd.specs.Ordered.{node_at, part_at};

use crate::NoMemory;
use crate::nodes::Nodes;
use crate::part::Part;
use std::alloc::Global;
use std::marker::Model;
use std::sync::Arc;

/// A finished list of nodes. A further owner copies nothing of it.
#[derive(Drop)]
pub struct Shared {
    nodes: Arc<Nodes>,
}

impl Model for Shared {
    ghost use Rattle.std.specs.Prelude.{List};
    ghost use Rattle.sp_dd.specs.NodeLists.{Node};

    ghost Value = { List Node };

    ghost view = { λ s. s.nodes.value };
}

impl Shared {
    /// The first owner.
    pub fn new(alloc: Global, nodes: Nodes) -> Result<Shared, NoMemory>
        ensures { IfOk result (λ s. s ≡ nodes) }
    {
        share(alloc, nodes)
    }

    /// One more owner, which may be refused as a growth can.
    pub fn again(&self) -> Result<Shared, NoMemory>
        ensures { IfOk result (λ s. s ≡ self.now) }
    {
        let nodes = Arc::try_clone(&self.nodes)?;
        Ok(Shared { nodes })
    }

    /// The list itself.
    pub fn nodes(&self) -> &Nodes
        ensures { result.now ≡ self.now }
    {
        &self.nodes
    }

    /// A node's slot.
    pub fn slot(&self, at: usize) -> u64
        requires { at < length self.now }
        ensures { result ≡ (node_at self.now at).slot }
    {
        self.nodes.slot(at)
    }

    /// What a value of a node's slot leads to.
    pub fn part(&self, at: usize, value: u64) -> Part
        requires node { at < length self.now }
        requires value { value < length (node_at self.now at).parts }
        ensures { result ≡ part_at self.now at value }
    {
        self.nodes.part(at, value)
    }
}

/// The first owner of a list.
#[inline(always)]
pub fn share(alloc: Global, nodes: Nodes) -> Result<Shared, NoMemory>
    ensures { IfOk result (λ s. s ≡ nodes) }
{
    let nodes = Arc::new(alloc, nodes).map_err(|_| NoMemory)?;
    Ok(Shared { nodes })
}
