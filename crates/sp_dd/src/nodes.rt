//! The nodes of a diagram.
ghost use Rattle.std.specs.Prelude.{◌≡◌, ◌<◌, ◌≤◌, ◌+◌, ◌↔◌, IsTrue, [], ◌∷◌, ◌++◌, length, take, drop, IfOk, OnOk, OnErr, ℕ, List};
ghost use Rattle.sp_dd.specs.NodeLists.{Node, made_node};
ghost use Rattle.sp_dd.specs.Ordered.{node_at, part_at};
ghost use Rattle.sp_dd.specs.Hashes.{node_hash};
ghost use Rattle.sp_dd.specs.Flat.{nodes_of, ArePartsInBuffer};
ghost use Rattle.sp_dd.specs.Wording.{word_part, IsPlain};
ghost use Rattle.sp_dd.specs.declared.part.Part.{Part};

use crate::NoMemory;
use crate::mixing::upper;
use crate::part::Part;
use crate::words::{Words, has_plain, push_two_plain};
use std::alloc::Global;
use std::marker::Model;

/// A node's slot, where its parts stand, and how many parts lead to it, as far as they were counted. Nothing rests on `uses`.
#[derive(Clone, Copy)]
pub struct Head {
    pub slot: u8,
    pub uses: u8,
    pub count: u16,
    pub from: u32,
}

/// A list of nodes, each with its slot and one part for each of the slot's values. All parts stand in one buffer.
#[derive(Drop)]
pub struct Nodes {
    heads: Vec<Head>,
    parts: Words,
}

impl Model for Nodes {
    ghost use Rattle.std.specs.Prelude.{List, length};
    ghost use Rattle.sp_dd.specs.NodeLists.{Node};
    ghost use Rattle.sp_dd.specs.Flat.{nodes_of, ArePartsInBuffer};

    ghost Value = { List Node };

    ghost view = { λ a. nodes_of a.parts a.heads.items };

    ghost invariant = { λ a. ArePartsInBuffer (length a.parts) a.heads.items };
}

impl Nodes {
    /// No nodes.
    pub fn new(alloc: Global) -> Nodes
        ensures { result ≡ [] }
    {
        Nodes {
            heads: Vec::new(alloc),
            parts: Words::new(alloc),
        }
    }

    /// No nodes, with room for so many of two parts.
    pub fn with_room(alloc: Global, room: usize) -> Result<Nodes, NoMemory>
        ensures { IfOk result (λ nodes. nodes ≡ []) }
    {
        room_for(alloc, room)
    }

    /// How many nodes there are.
    #[inline(always)]
    pub fn len(&self) -> usize
        ensures { result ≡ length self.now }
    {
        self.heads.len()
    }

    /// Where the list takes its memory.
    pub fn allocator(&self) -> Global {
        *self.heads.allocator()
    }

    /// A node's slot.
    #[inline(always)]
    pub fn slot(&self, at: usize) -> u64
        requires { at < length self.now }
        ensures { result ≡ (node_at self.now at).slot }
    {
        self.heads[at].slot as u64
    }

    /// What a value of a node's slot leads to.
    #[inline(always)]
    pub fn part(&self, at: usize, value: u64) -> Part
        requires node { at < length self.now }
        requires value { value < length (node_at self.now at).parts }
        ensures { result ≡ part_at self.now at value }
    {
        let head = self.heads[at];
        self.parts.get(head.from as usize + value as usize)
    }

    /// How many parts a node has.
    #[inline(always)]
    pub fn count(&self, at: usize) -> usize
        requires { at < length self.now }
        ensures { result ≡ length (node_at self.now at).parts }
    {
        self.heads[at].count as usize
    }

    /// One more node, with the parts of a list from a place on.
    #[inline(always)]
    pub fn push(&mut self, slot: u64, list: &Words, start: usize) -> Result<(), NoMemory>
        requires { start ≤ length list.now }
        ensures ok { OnOk result (self.new ≡ self.old ++ made_node slot (drop start list.now) ∷ []) }
        ensures err { OnErr result (self.new ≡ self.old) }
    {
        let from = self.parts.len();
        let count = list.len() - start;
        if slot >= 256 || count >= 65536 || from >= 4294967296 {
            return Err(NoMemory);
        }
        self.parts.extend(list, start)?;
        self.heads
            .push(Head {
                slot: slot as u8,
                uses: 0,
                count: count as u16,
                from: from as u32,
            })
            .map_err(|_| NoMemory)?;
        Ok(())
    }

    /// One more node, with these parts.
    pub fn push_parts(&mut self, slot: u64, parts: &[Part]) -> Result<(), NoMemory>
        ensures ok { OnOk result (self.new ≡ self.old ++ made_node slot parts.now ∷ []) }
        ensures err { OnErr result (self.new ≡ self.old) }
    {
        let from = self.parts.len();
        let count = parts.len();
        if slot >= 256 || count >= 65536 || from >= 4294967296 {
            return Err(NoMemory);
        }
        self.parts.extend_from(parts)?;
        self.heads
            .push(Head {
                slot: slot as u8,
                uses: 0,
                count: count as u16,
                from: from as u32,
            })
            .map_err(|_| NoMemory)?;
        Ok(())
    }

    /// Counts the parts of a list from a place on among those that lead to their nodes.
    #[inline(always)]
    pub fn count_uses(&mut self, list: &Words, start: usize)
        requires { start ≤ length list.now }
        ensures { self.new ≡ self.old }
    {
        count_uses_in(&mut self.heads, list, start);
    }

    /// Whether several parts may lead to where a part leads. A node to which one part leads is met once by a walk that goes into
    /// each part of a node once. Nothing rests on the answer.
    #[inline(always)]
    pub fn is_shared(&self, part: Part) -> bool {
        match part {
            Part::Leaf(_) => true,
            Part::At(at) => at >= self.heads.len() || self.heads[at].uses > 1,
        }
    }

    /// Takes the last node away.
    pub fn pop(&mut self)
        ensures { (ns : List Node) (n : Node) → self.old ≡ ns ++ n ∷ [] → self.new ≡ ns }
    {
        let _ = self.heads.pop();
    }

    /// Whether the node at a place has that slot and the parts of a list from a place on.
    #[inline(always)]
    pub fn is_at(&self, at: usize, slot: u64, list: &Words, start: usize) -> bool
        requires at { at < length self.now }
        requires start { start ≤ length list.now }
        ensures { IsTrue result ↔ node_at self.now at ≡ made_node slot (drop start list.now) }
    {
        self.has(at, slot, list, start, list.len() - start)
    }

    /// Whether the node at a place has that slot and these parts.
    pub fn has_parts(&self, at: usize, slot: u64, parts: &[Part]) -> bool
        requires at { at < length self.now }
        ensures { IsTrue result ↔ node_at self.now at ≡ made_node slot parts.now }
    {
        let head = self.heads[at];
        if head.slot as u64 != slot {
            return false;
        }
        if head.count as usize != parts.len() {
            return false;
        }
        same_parts(&self.parts, head.from as usize, parts)
    }

    /// The hash of a node.
    pub fn hash(&self, at: usize) -> u32
        requires { at < length self.now }
        ensures { result ≡ node_hash (node_at self.now at) }
    {
        let head = self.heads[at];
        hash_of(
            head.slot as u64,
            &self.parts,
            head.from as usize,
            head.count as usize,
        )
    }

    #[inline(always)]
    fn has(&self, at: usize, slot: u64, words: &Words, from: usize, count: usize) -> bool
        requires at { at < length self.now }
        requires within { from + count ≤ length words.now }
        ensures { IsTrue result ↔ node_at self.now at ≡ made_node slot (take count (drop from words.now)) }
    {
        let head = self.heads[at];
        if head.slot as u64 != slot {
            return false;
        }
        if head.count as usize != count {
            return false;
        }
        same_range(&self.parts, head.from as usize, words, from, count)
    }

    fn has_same(&self, at: usize, other: &Nodes) -> bool
        requires at { at < length self.now }
        requires other { at < length other.now }
        ensures { IsTrue result ↔ node_at self.now at ≡ node_at other.now at }
    {
        let head = other.heads[at];
        self.has(
            at,
            head.slot as u64,
            &other.parts,
            head.from as usize,
            head.count as usize,
        )
    }

    /// Whether two lists of nodes are one.
    pub fn is_same(&self, other: &Nodes) -> bool
        ensures { IsTrue result ↔ self.now ≡ other.now }
    {
        if self.len() != other.len() {
            return false;
        }
        for i in 0..self.len() {
            if !self.has_same(i, other) {
                return false;
            }
        }
        true
    }
}

/// No nodes, with room for so many of two parts.
#[inline(always)]
pub fn room_for(alloc: Global, count: usize) -> Result<Nodes, NoMemory>
    ensures { IfOk result (λ nodes. nodes ≡ []) }
{
    let heads = Vec::with_capacity(alloc, count)?;
    let parts = Words::with_room(alloc, count.saturating_mul(2))?;
    Ok(Nodes { heads, parts })
}

/// One more node, with the parts of two words that say them by themselves.
#[inline(always)]
pub fn push_two(nodes: &mut Nodes, slot: u64, left: u64, right: u64) -> Result<(), NoMemory>
    requires left { IsPlain left }
    requires right { IsPlain right }
    ensures ok { OnOk result (nodes.new ≡ nodes.old ++ made_node slot (word_part [] left ∷ word_part [] right ∷ []) ∷ []) }
    ensures err { OnErr result (nodes.new ≡ nodes.old) }
{
    let from = nodes.parts.len();
    if slot >= 256 || from >= 4294967296 {
        return Err(NoMemory);
    }
    push_two_plain(&mut nodes.parts, left, right)?;
    nodes
        .heads
        .push(Head {
            slot: slot as u8,
            uses: 0,
            count: 2,
            from: from as u32,
        })
        .map_err(|_| NoMemory)?;
    Ok(())
}

/// Whether the node at a place has that slot and the parts of two words that say them by themselves.
#[inline(always)]
pub fn is_two_at(nodes: &Nodes, at: usize, slot: u64, left: u64, right: u64) -> bool
    requires at { at < length nodes.now }
    requires left { IsPlain left }
    requires right { IsPlain right }
    ensures { IsTrue result ↔ node_at nodes.now at ≡ made_node slot (word_part [] left ∷ word_part [] right ∷ []) }
{
    let head = nodes.heads[at];
    if head.slot as u64 != slot {
        return false;
    }
    if head.count != 2 {
        return false;
    }
    same_two(&nodes.parts, head.from as usize, left, right)
}

/// Counts the part of a word that says it by itself among those that lead to its node.
#[inline(always)]
pub fn count_word(nodes: &mut Nodes, word: u64)
    ensures { nodes.new ≡ nodes.old }
{
    count_use(&mut nodes.heads, word as usize);
}

#[inline(always)]
fn count_uses_in(heads: &mut [Head], list: &Words, start: usize)
    requires { start ≤ length list.now }
    ensures nodes { (ps : List Part) → nodes_of ps heads.new ≡ nodes_of ps heads.old }
    ensures within { (n : ℕ) → ArePartsInBuffer n heads.old → ArePartsInBuffer n heads.new }
{
    for i in start..list.len() {
        if let Part::At(at) = list.get(i) {
            count_use(heads, at);
        }
    }
}

#[inline(always)]
fn count_use(heads: &mut [Head], at: usize)
    ensures nodes { (ps : List Part) → nodes_of ps heads.new ≡ nodes_of ps heads.old }
    ensures within { (n : ℕ) → ArePartsInBuffer n heads.old → ArePartsInBuffer n heads.new }
{
    if at < heads.len() {
        heads[at].uses = heads[at].uses.saturating_add(1);
    }
}

/// Whether so many parts are the same in two lists, each from a place on.
#[inline(always)]
fn same_range(
    left: &Words,
    left_from: usize,
    right: &Words,
    right_from: usize,
    count: usize,
) -> bool
    requires left { left_from + count ≤ length left.now }
    requires right { right_from + count ≤ length right.now }
    ensures { IsTrue result ↔ take count (drop left_from left.now) ≡ take count (drop right_from right.now) }
{
    let _ = left.len();
    let _ = right.len();
    for i in 0..count {
        if !left.same(left_from + i, right, right_from + i) {
            return false;
        }
    }
    true
}

/// Whether a list has the parts of two words at a place and behind it.
#[inline(always)]
fn same_two(words: &Words, from: usize, left: u64, right: u64) -> bool
    requires within { from + 2 ≤ length words.now }
    requires left { IsPlain left }
    requires right { IsPlain right }
    ensures { IsTrue result ↔ take 2 (drop from words.now) ≡ word_part [] left ∷ word_part [] right ∷ [] }
{
    let _ = words.len();
    if !has_plain(words, from, left) {
        return false;
    }
    has_plain(words, from + 1, right)
}

/// Whether a list has these parts from a place on.
fn same_parts(left: &Words, from: usize, parts: &[Part]) -> bool
    requires { from + length parts.now ≤ length left.now }
    ensures { IsTrue result ↔ take (length parts.now) (drop from left.now) ≡ parts.now }
{
    let _ = left.len();
    for i in 0..parts.len() {
        if !left.get(from + i).is_same(&parts[i]) {
            return false;
        }
    }
    true
}

/// The hash of a node with so many parts of a list from a place on.
#[inline(always)]
pub fn hash_of(slot: u64, words: &Words, from: usize, count: usize) -> u32
    requires { from + count ≤ length words.now }
    ensures { result ≡ node_hash (made_node slot (take count (drop from words.now))) }
{
    let mut hash = slot;
    let _ = words.len();
    for i in 0..count {
        hash = words.mixed_with(hash, from + i);
    }
    upper(hash)
}
