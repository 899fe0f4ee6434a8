//! What judging gives.

ghost use Rattle.std.specs.Prelude.{◌≡◌};
ghost use Rattle.sp_trees.specs.Judged as spec;

use crate::env::Shared;
use crate::refusal::{Refusal, lesser};
use crate::slots::Slots;

/// What judging a tree gives: the slots that it mentions, and its function, or the refusal that comes first.
#[derive(Drop)]
pub struct Judged {
    pub mentions: Slots,
    pub outcome: Result<Shared, Refusal>,
}

impl Judged {
    /// The refusal, if there is one. Takes no memory.
    pub fn refusal(&self) -> Option<Refusal>
        ensures { result ≡ spec.refusal self.now.outcome }
    {
        match &self.outcome {
            Ok(_) => None,
            Err(refusal) => Some(*refusal),
        }
    }
}

/// A branch of a node: the place of its value's word, the number of that value among those of the node's variable, and what
/// judging its tree gave.
#[derive(Drop)]
pub struct Listed {
    pub at: u64,
    pub value: Option<u64>,
    pub judged: Judged,
}

/// The first refusal inside trees.
pub(crate) fn inside(trees: &[Judged]) -> Option<Refusal>
    ensures { result ≡ spec.inside trees.now }
{
    trees
        .iter()
        .fold(None, |first, tree| lesser(first, tree.refusal()))
}

/// What trees mention.
pub(crate) fn mentioned(trees: &[Judged]) -> Slots
    ensures { result ≡ spec.mentions_of_trees trees.now }
{
    trees
        .iter()
        .fold(Slots::none(), |all, tree| all.union(tree.mentions))
}

/// The first refusal inside branches.
pub(crate) fn inside_branches(branches: &[Listed]) -> Option<Refusal>
    ensures { result ≡ spec.inside_branches branches.now }
{
    branches.iter().fold(None, |first, branch| lesser(first, branch.judged.refusal()))
}

/// What branches mention, and some slots more.
pub(crate) fn mentioned_in_branches(more: Slots, branches: &[Listed]) -> Slots
    ensures { result ≡ spec.mentioned_in_branches more branches.now }
{
    branches
        .iter()
        .fold(more, |all, branch| all.union(branch.judged.mentions))
}
