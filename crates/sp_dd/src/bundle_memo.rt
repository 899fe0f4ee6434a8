//! What is remembered of the bundles of a walk.
ghost use Rattle.std.specs.Prelude.{◌≡◌, ◌∷◌, ◌++◌, [], ◌<◌, ◌≤◌, length, drop, IfSome, IfOk, OnOk};
ghost use Rattle.sp_dd.specs.NodeLists.{made_node};
ghost use Rattle.sp_dd.specs.Bundles.{HasBundle};

use crate::NoMemory;
use crate::marks::{Marks, REACH};
use crate::mixing::{mix_part, upper};
use crate::nodes::Nodes;
use crate::part::Part;
use crate::words::Words;
use std::alloc::Global;

/// Bundles with their parts of a list. A bundle is kept as a node, with the slot on which it branches, and is looked for by its
/// hash. It may be forgotten.
#[derive(Drop)]
pub struct BundleMemo {
    pub bundles: Nodes,
    pub parts: Words,
    marks: Marks,
}

impl BundleMemo {
    /// Nothing.
    pub fn new(alloc: Global) -> BundleMemo
        ensures bundles { result.bundles ≡ [] }
        ensures parts { result.parts ≡ [] }
    {
        BundleMemo {
            bundles: Nodes::new(alloc),
            parts: Words::new(alloc),
            marks: Marks::new(alloc),
        }
    }

    /// What is remembered of a bundle.
    pub fn find(&self, hash: u32, slot: u64, bundle: &[Part]) -> Option<Part>
        ensures { IfSome result (λ a. HasBundle self.now.bundles self.now.parts (made_node slot bundle.now) a) }
    {
        for step in 0..REACH {
            let mark = self.marks.at(hash, step);
            if mark.after == 0 {
                return None;
            }
            let at = (mark.after - 1) as usize;
            if mark.hash == hash && at < self.bundles.len() && at < self.parts.len() {
                if self.bundles.has_parts(at, slot, bundle) {
                    return Some(self.parts.get(at));
                }
            }
        }
        None
    }

    /// Remembers the part of the bundle that begins at `start`.
    pub fn keep(
        &mut self,
        hash: u32,
        slot: u64,
        list: &Vec<Part>,
        start: usize,
        part: Part,
    ) -> Result<(), NoMemory>
        requires { start ≤ length list.now.items }
        ensures bundles { OnOk result (self.new.bundles ≡ self.old.bundles ++ made_node slot (drop start list.now.items) ∷ []) }
        ensures parts { OnOk result (self.new.parts ≡ self.old.parts ++ part ∷ []) }
    {
        let bundle = &list[start..];
        let place = self.bundles.len();
        self.bundles.push_parts(slot, bundle)?;
        self.parts.push(part)?;
        self.marks.note(hash, place)?;
        Ok(())
    }
}

/// A hash of a bundle.
pub fn hash_of(slot: u64, bundle: &[Part]) -> u32 {
    let mut hash = slot;
    for part in bundle {
        hash = mix_part(hash, part);
    }
    upper(hash)
}
