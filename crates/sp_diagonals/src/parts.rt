//! Parts of a list of nodes where a slot has a value.

ghost use Rattle.std.specs.Prelude.{◌≡◌, ◌<◌, ℕ, length};
ghost use Rattle.sp_dd.specs.Ordered.{IsBefore, node_at};
ghost use Rattle.sp_ddops.specs.Cofactors.{cofactor_of};

use sp_dd::{Nodes, Part};

/// The part where a slot has a value: the same one where it doesn't branch on the slot.
#[inline(always)]
pub(crate) fn cofactor(nodes: &Nodes, slot: u64, value: u64, part: Part) -> Part
    requires before { IsBefore (length nodes.now) part }
    requires value { (i : ℕ) → i < length nodes.now → (node_at nodes.now i).slot ≡ slot → value < length (node_at nodes.now i).parts }
    ensures { result ≡ cofactor_of nodes.now slot value part }
{
    match part {
        Part::Leaf(_) => part,
        Part::At(i) => {
            if nodes.slot(i) == slot {
                nodes.part(i, value)
            } else {
                part
            }
        }
    }
}
