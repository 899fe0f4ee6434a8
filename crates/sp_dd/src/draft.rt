//! Nodes in the making: a list in which no node stands twice.
ghost use Rattle.std.specs.Prelude.{◌≡◌, ◌≢◌, ℕ, ◌<◌, ◌≤◌, [], ◌∷◌, length, drop, map, IfOk, OnErr, MatchOption};
ghost use Rattle.sp_dd.specs.NodeLists.{made_node, node_of_parts, all_are, first_part};
ghost use Rattle.sp_dd.specs.Ordered.{node_at};
ghost use Rattle.sp_dd.specs.Wording.{word_part, IsPlain};
ghost use Rattle.sp_dd.specs.Hashes.{node_hash, AreApart, IsIndexed, IsPut};

use crate::NoMemory;
use crate::chains::Chains;
use crate::nodes::{Nodes, count_word, hash_of, is_two_at, push_two, room_for};
use crate::part::Part;
use crate::words::{Words, push_two_plain};
use std::alloc::Global;
use std::marker::Model;

/// A list of nodes in the making, in which each node is found by its content. While there are few they are found one by one.
#[derive(Drop)]
pub struct Draft {
    nodes: Nodes,
    hashes: Option<Chains>,
}

impl Model for Draft {
    ghost use Rattle.std.specs.Prelude.{List};
    ghost use Rattle.sp_dd.specs.NodeLists.{Node};
    ghost use Rattle.sp_dd.specs.Hashes.{IsNodeDraft};

    ghost Value = { List Node };

    ghost view = { λ d. d.nodes };

    ghost invariant = { λ d. IsNodeDraft d.nodes d.hashes };
}

/// How many nodes are found one by one.
const FEW: usize = 8;

impl Draft {
    /// No nodes, with room for that many, and no table.
    #[inline(always)]
    pub fn small(alloc: Global, room: usize) -> Result<Draft, NoMemory>
        ensures { IfOk result (λ d. d ≡ []) }
    {
        let nodes = room_for(alloc, room)?;
        Ok(Draft {
            nodes,
            hashes: None,
        })
    }

    /// No nodes, with room for that many.
    pub fn new(alloc: Global, room: usize) -> Result<Draft, NoMemory>
        ensures { IfOk result (λ d. d ≡ []) }
    {
        let nodes = room_for(alloc, room)?;
        if room <= FEW {
            return Ok(Draft {
                nodes,
                hashes: None,
            });
        }
        let hashes = Chains::new(alloc, room)?;
        Ok(Draft {
            nodes,
            hashes: Some(hashes),
        })
    }

    /// The part with that slot and the parts of a list from a place on: the only part where all are one, else their node, which is
    /// added where it is new.
    #[inline(always)]
    pub fn join(&mut self, slot: u64, list: &Words, start: usize) -> Result<Part, NoMemory>
        requires { start ≤ length list.now }
        ensures { IfOk result (λ a. node_of_parts slot (self.old, drop start list.now) ≡ (self.new, a)) }
    {
        if are_one(list, start) {
            return Ok(first_of(list, start));
        }
        let at = self.place(slot, list, start)?;
        Ok(Part::At(at))
    }

    /// The place of the node with that slot and the parts of a list from a place on, which is added where it is new.
    #[inline(always)]
    fn place(&mut self, slot: u64, list: &Words, start: usize) -> Result<usize, NoMemory>
        requires { start ≤ length list.now }
        ensures { IfOk result (λ at. IsPut (made_node slot (drop start list.now)) self.old self.new at) }
    {
        if self.hashes.is_none() && self.nodes.len() >= FEW {
            let hashes = hashes_of(&self.nodes)?;
            self.hashes = Some(hashes);
        }
        match &mut self.hashes {
            Some(hashes) => place_by_hash(&mut self.nodes, hashes, slot, list, start),
            None => place_among(&mut self.nodes, slot, list, start),
        }
    }

    /// The part with that slot and the parts of two words that say them by themselves, in such a word: their part where they are
    /// one, else their node, which is added where it is new.
    #[inline(always)]
    pub fn join_two(&mut self, slot: u64, left: u64, right: u64) -> Result<u64, NoMemory>
        requires left { IsPlain left }
        requires right { IsPlain right }
        ensures plain { IfOk result (λ w. IsPlain w) }
        ensures joined { IfOk result (λ w. node_of_parts slot (self.old, word_part [] left ∷ word_part [] right ∷ []) ≡ (self.new, word_part [] w)) }
    {
        if left == right {
            return Ok(left);
        }
        let at = self.place_two(slot, left, right)?;
        if at >= 4294967296 {
            return Err(NoMemory);
        }
        Ok(at as u64)
    }

    /// The place of the node with that slot and the parts of two words, which is added where it is new.
    #[inline(always)]
    fn place_two(&mut self, slot: u64, left: u64, right: u64) -> Result<usize, NoMemory>
        requires left { IsPlain left }
        requires right { IsPlain right }
        ensures { IfOk result (λ at. IsPut (made_node slot (word_part [] left ∷ word_part [] right ∷ [])) self.old self.new at) }
    {
        if self.hashes.is_none() && self.nodes.len() >= FEW {
            let hashes = hashes_of(&self.nodes)?;
            self.hashes = Some(hashes);
        }
        match &mut self.hashes {
            Some(hashes) => place_two_by_hash(&mut self.nodes, hashes, slot, left, right),
            None => place_two_among(&mut self.nodes, slot, left, right),
        }
    }

    /// Where the list takes its memory.
    pub fn allocator(&self) -> Global {
        self.nodes.allocator()
    }

    /// The finished list.
    #[inline(always)]
    pub fn finish(self) -> Nodes
        ensures { result ≡ self }
    {
        self.nodes
    }
}

/// The place of a node in a list with the hash of each, or at its end, where it then is.
#[inline(always)]
fn place_by_hash(
    nodes: &mut Nodes,
    hashes: &mut Chains,
    slot: u64,
    list: &Words,
    start: usize,
) -> Result<usize, NoMemory>
    requires start { start ≤ length list.now }
    requires indexed { IsIndexed nodes.old hashes.old }
    ensures place { IfOk result (λ at. IsPut (made_node slot (drop start list.now)) nodes.old nodes.new at) }
    ensures same { OnErr result (nodes.new ≡ nodes.old) }
    ensures indexed { IsIndexed nodes.new hashes.new }
{
    let hash = hash_of(slot, list, start, list.len() - start);
    if let Some(at) = find(nodes, hashes, hash, slot, list, start) {
        return Ok(at);
    }
    let at = nodes.len();
    nodes.push(slot, list, start)?;
    if hashes.push(hash).is_err() {
        nodes.pop();
        return Err(NoMemory);
    }
    nodes.count_uses(list, start);
    Ok(at)
}

/// The place of a node in a list of few, or at its end, where it then is.
fn place_among(nodes: &mut Nodes, slot: u64, list: &Words, start: usize) -> Result<usize, NoMemory>
    requires start { start ≤ length list.now }
    requires apart { AreApart nodes.old }
    ensures place { IfOk result (λ at. IsPut (made_node slot (drop start list.now)) nodes.old nodes.new at) }
    ensures same { OnErr result (nodes.new ≡ nodes.old) }
    ensures apart { AreApart nodes.new }
{
    if let Some(at) = find_among(nodes, slot, list, start) {
        return Ok(at);
    }
    let at = nodes.len();
    nodes.push(slot, list, start)?;
    nodes.count_uses(list, start);
    Ok(at)
}

/// The place of a node with the parts of two words in a list with the hash of each, or at its end, where it then is.
#[inline(never)]
fn place_two_by_hash(
    nodes: &mut Nodes,
    hashes: &mut Chains,
    slot: u64,
    left: u64,
    right: u64,
) -> Result<usize, NoMemory>
    requires left { IsPlain left }
    requires right { IsPlain right }
    requires indexed { IsIndexed nodes.old hashes.old }
    ensures place { IfOk result (λ at. IsPut (made_node slot (word_part [] left ∷ word_part [] right ∷ [])) nodes.old nodes.new at) }
    ensures same { OnErr result (nodes.new ≡ nodes.old) }
    ensures indexed { IsIndexed nodes.new hashes.new }
{
    let mut list = Words::new(nodes.allocator());
    push_two_plain(&mut list, left, right)?;
    place_by_hash(nodes, hashes, slot, &list, 0)
}

/// The place of a node with the parts of two words in a list of few, or at its end, where it then is.
#[inline(always)]
fn place_two_among(nodes: &mut Nodes, slot: u64, left: u64, right: u64) -> Result<usize, NoMemory>
    requires left { IsPlain left }
    requires right { IsPlain right }
    requires apart { AreApart nodes.old }
    ensures place { IfOk result (λ at. IsPut (made_node slot (word_part [] left ∷ word_part [] right ∷ [])) nodes.old nodes.new at) }
    ensures same { OnErr result (nodes.new ≡ nodes.old) }
    ensures apart { AreApart nodes.new }
{
    if let Some(at) = find_two_among(nodes, slot, left, right) {
        return Ok(at);
    }
    let at = nodes.len();
    push_two(nodes, slot, left, right)?;
    count_word(nodes, left);
    count_word(nodes, right);
    Ok(at)
}

/// The hash of each node.
#[inline(never)]
fn hashes_of(nodes: &Nodes) -> Result<Chains, NoMemory>
    ensures { IfOk result (λ hashes. hashes ≡ map node_hash nodes.now) }
{
    let mut hashes = Chains::new(nodes.allocator(), nodes.len())?;
    for at in 0..nodes.len() {
        hashes.push(nodes.hash(at))?;
    }
    Ok(hashes)
}

/// The place of a node, looked for one by one.
fn find_among(nodes: &Nodes, slot: u64, list: &Words, start: usize) -> Option<usize>
    requires { start ≤ length list.now }
    ensures { MatchOption result ((j : ℕ) → j < length nodes.now → node_at nodes.now j ≢ made_node slot (drop start list.now)) (λ at. (at < length nodes.now) × (node_at nodes.now at ≡ made_node slot (drop start list.now))) }
{
    for at in 0..nodes.len() {
        if nodes.is_at(at, slot, list, start) {
            return Some(at);
        }
    }
    None
}

/// The place of a node, looked for by its hash.
#[inline(always)]
fn find(
    nodes: &Nodes,
    hashes: &Chains,
    hash: u32,
    slot: u64,
    list: &Words,
    start: usize,
) -> Option<usize>
    requires start { start ≤ length list.now }
    requires hashes { hashes.now ≡ map node_hash nodes.now }
    requires hash { hash ≡ node_hash (made_node slot (drop start list.now)) }
    ensures { MatchOption result ((j : ℕ) → j < length nodes.now → node_at nodes.now j ≢ made_node slot (drop start list.now)) (λ at. (at < length nodes.now) × (node_at nodes.now at ≡ made_node slot (drop start list.now))) }
{
    let mut top = hashes.above(hash);
    while top > 0 {
        let at = top - 1;
        if nodes.is_at(at, slot, list, start) {
            return Some(at);
        }
        top = hashes.before(at);
    }
    None
}

/// The place of a node with the parts of two words, looked for one by one.
#[inline(always)]
fn find_two_among(nodes: &Nodes, slot: u64, left: u64, right: u64) -> Option<usize>
    requires left { IsPlain left }
    requires right { IsPlain right }
    ensures { MatchOption result ((j : ℕ) → j < length nodes.now → node_at nodes.now j ≢ made_node slot (word_part [] left ∷ word_part [] right ∷ [])) (λ at. (at < length nodes.now) × (node_at nodes.now at ≡ made_node slot (word_part [] left ∷ word_part [] right ∷ []))) }
{
    for at in 0..nodes.len() {
        if is_two_at(nodes, at, slot, left, right) {
            return Some(at);
        }
    }
    None
}

/// The first part.
#[inline(always)]
fn first_of(list: &Words, start: usize) -> Part
    requires { start ≤ length list.now }
    ensures { result ≡ first_part (drop start list.now) }
{
    if start < list.len() {
        list.get(start)
    } else {
        Part::Leaf(0)
    }
}

/// Whether all parts are the first.
#[inline(always)]
fn are_one(list: &Words, start: usize) -> bool
    requires { start ≤ length list.now }
    ensures { result ≡ all_are (first_part (drop start list.now)) (drop start list.now) }
{
    if start >= list.len() {
        return true;
    }
    for i in start + 1..list.len() {
        if !list.same(start, list, i) {
            return false;
        }
    }
    true
}
