//! What is remembered of pairs of parts.
ghost use Rattle.std.specs.Prelude.{◌≡◌, ◌<◌, length, [], ◌∷◌, ◌++◌, IfSome, OnOk};
ghost use Rattle.sp_dd.specs.Ordered.{IsBefore};
ghost use Rattle.sp_ddops.specs.PairNumbers.{made_number, key_of, PairHasNumber};

use sp_dd::{NoMemory, Nodes, Part};
use std::alloc::Global;
use std::marker::Model;

/// A number of a pair of parts, each with its key: one more than its place for a node, 0 for a leaf.
#[derive(Clone, Copy)]
pub struct PairNumber {
    pub left: usize,
    pub right: usize,
    pub number: i128,
}

/// Pairs of parts with their numbers, found by their keys. Takes no memory before the first pair.
#[derive(Drop)]
pub struct PairTable {
    entries: Vec<PairNumber>,
    tops: Vec<usize>,
    room: usize,
}

impl Model for PairTable {
    ghost use Rattle.std.specs.Prelude.{List};
    ghost use Rattle.sp_ddops.specs.declared.pair_table.PairNumber.{PairNumber};

    ghost Value = { List PairNumber };

    ghost view = { λ t. t.entries.items };
}

impl PairTable {
    /// Nothing. With the first pair there is room for so many.
    pub fn new(alloc: Global, room: usize) -> PairTable
        ensures { result ≡ [] }
    {
        PairTable {
            entries: Vec::new(alloc),
            tops: Vec::new(alloc),
            room,
        }
    }

    /// The number that was remembered last of a pair.
    #[inline(always)]
    pub fn find(&self, left: usize, right: usize) -> Option<i128>
        ensures { IfSome result (λ z. PairHasNumber self.now left right z) }
    {
        let mut slot = hash_of(left, right);
        for _ in 0..self.tops.len() {
            match entry_in(&self.entries, &self.tops, slot) {
                None => return None,
                Some(entry) => {
                    if entry.left == left && entry.right == right {
                        return Some(entry.number);
                    }
                }
            }
            slot = slot.wrapping_add(1);
        }
        None
    }

    /// Remembers a number of a pair.
    #[inline(always)]
    pub fn keep(&mut self, left: usize, right: usize, number: i128) -> Result<(), NoMemory>
        ensures { OnOk result (self.new ≡ self.old ++ made_number left right number ∷ []) }
    {
        if self.entries.len() >= self.tops.len() / 4 {
            self.widen()?;
        }
        self.entries
            .push(PairNumber {
                left,
                right,
                number,
            })
            .map_err(|_| NoMemory)?;
        let top = self.entries.len();
        link(&self.entries, &mut self.tops, top);
        Ok(())
    }

    #[inline(never)]
    fn widen(&mut self) -> Result<(), NoMemory>
        ensures { self.new ≡ self.old }
    {
        let room = self.entries.len().saturating_mul(4).max(self.room).max(4);
        let count = 4 * room.min(2147483648).next_power_of_two();
        let alloc = *self.entries.allocator();
        let mut tops = vec![in alloc; 0usize; count]?;
        for top in 0..self.entries.len() {
            link(&self.entries, &mut tops, top + 1);
        }
        self.tops = tops;
        Ok(())
    }
}

/// A part's key.
#[inline(always)]
pub fn key_in(nodes: &Nodes, part: Part) -> usize
    requires { IsBefore (length nodes.now) part }
    ensures { result ≡ key_of part }
{
    let _ = nodes.len();
    match part {
        Part::Leaf(_) => 0,
        Part::At(i) => i + 1,
    }
}

#[inline(always)]
fn hash_of(left: usize, right: usize) -> usize {
    let mixed = left.wrapping_mul(0x9e37_79b9_7f4a_7c15) ^ right;
    mixed.wrapping_mul(0x9e37_79b9_7f4a_7c15) >> 32
}

/// The entry to which a slot of the table leads. The table's width is a power of two, and it goes round.
#[inline(always)]
fn entry_in(entries: &[PairNumber], tops: &[usize], slot: usize) -> Option<PairNumber>
    ensures { IfSome result (λ e. PairHasNumber entries.now e.left e.right e.number) }
{
    let top = *tops.get(slot & tops.len().wrapping_sub(1))?;
    let entry = *entries.get(top.checked_sub(1)?)?;
    Some(entry)
}

/// Leads to the entry before `top` from the first slot that is free or leads to an entry with the same keys.
#[inline(always)]
fn link(entries: &[PairNumber], tops: &mut [usize], top: usize) {
    let Some(entry) = entries.get(top.wrapping_sub(1)) else {
        return;
    };
    let mut slot = hash_of(entry.left, entry.right);
    for _ in 0..tops.len() {
        if !is_taken(entries, tops, slot, entry) {
            let place = slot & tops.len().wrapping_sub(1);
            if let Some(found) = tops.get_mut(place) {
                *found = top;
            }
            return;
        }
        slot = slot.wrapping_add(1);
    }
}

/// Whether a slot leads to an entry with other keys.
#[inline(always)]
fn is_taken(entries: &[PairNumber], tops: &[usize], slot: usize, entry: &PairNumber) -> bool {
    match entry_in(entries, tops, slot) {
        None => false,
        Some(other) => other.left != entry.left || other.right != entry.right,
    }
}
