//! Parts as words of 64 bits.
ghost use Rattle.std.specs.Prelude.{◌≡◌, ◌<◌, ◌≤◌, ◌-ℤ◌, ◌+ℤ◌, ◌≤ℤ◌, ◌<ℤ◌, negsuc, pos, ℤ, [], ◌∷◌, ◌++◌, length, slice_index_or, List, OnOk, OnErr, IfOk, IfSome};
ghost use Rattle.std.specs.Bool.{OnTrue};
ghost use Rattle.sp_dd.specs.declared.part.Part.TheVariants.{Leaf};
ghost use Rattle.sp_dd.specs.Wording.{word_part, IsPlain, IsWideLeafWithin, AreLeavesGrown, IsWordOf};

use crate::NoMemory;
use crate::part::Part;
use std::alloc::Global;
use std::marker::Model;

const NODES: u64 = 4294967296;

const LEAVES: u64 = 8589934592;

const ZERO: i128 = 9223372036854775808;

/// The wide leaves of words: those that don't fit into their words. A leaf of many words may stand here once.
#[derive(Drop)]
pub struct Leaves {
    values: Vec<i128>,
    // Where a leaf may stand, by its hash. Nothing rests on it.
    places: Vec<u32>,
}

impl Model for Leaves {
    ghost use Rattle.std.specs.Prelude.{List, ℤ};

    ghost Value = { List ℤ };

    ghost view = { λ a. a.values.items };
}

impl Leaves {
    /// None.
    pub fn new(alloc: Global) -> Leaves
        ensures { result ≡ [] }
    {
        Leaves {
            values: Vec::new(alloc),
            places: Vec::new(alloc),
        }
    }

    /// A word's part.
    #[inline(always)]
    pub fn part(&self, word: u64) -> Part
        requires { IsWideLeafWithin (length self.now) word }
        ensures { result ≡ word_part self.now word }
    {
        if word >= LEAVES {
            return Part::Leaf(leaf_of(word));
        }
        if word < NODES {
            return Part::At(word as usize);
        }
        Part::Leaf(self.values[(word - NODES) as usize])
    }

    /// A part's word, where it has one by itself or its leaf was found.
    #[inline(always)]
    pub fn word(&self, part: Part) -> Option<u64>
        ensures { IfSome result (λ w. IsWordOf self.now part w) }
    {
        if let Some(word) = plain_word(part) {
            return Some(word);
        }
        match part {
            Part::At(_) => None,
            Part::Leaf(value) => self.wide_word(value),
        }
    }

    #[inline(never)]
    fn wide_word(&self, value: i128) -> Option<u64>
        ensures { IfSome result (λ w. IsWordOf self.now (Leaf value) w) }
    {
        let count = self.places.len();
        if count == 0 {
            return None;
        }
        let place = self.places[hash_of(value) % count] as usize;
        if place >= 4294967295 || place >= self.values.len() {
            return None;
        }
        if self.values[place] != value {
            return None;
        }
        Some(NODES + place as u64)
    }

    /// A part's word. Its leaf is added where it isn't found.
    #[inline(always)]
    pub fn keep(&mut self, part: Part) -> Result<u64, NoMemory>
        ensures ok { IfOk result (λ w. AreLeavesGrown self.old self.new × IsWordOf self.new part w) }
        ensures err { OnErr result (self.new ≡ self.old) }
    {
        if let Some(word) = self.word(part) {
            return Ok(word);
        }
        match part {
            Part::At(_) => Err(NoMemory),
            Part::Leaf(value) => self.add(value),
        }
    }

    #[inline(never)]
    fn add(&mut self, value: i128) -> Result<u64, NoMemory>
        ensures ok { IfOk result (λ w. AreLeavesGrown self.old self.new × IsWordOf self.new (Leaf value) w) }
        ensures err { OnErr result (self.new ≡ self.old) }
    {
        let place = self.values.len();
        if place >= 4294967295 {
            return Err(NoMemory);
        }
        self.make_room(place)?;
        self.values.push(value).map_err(|_| NoMemory)?;
        mark(&mut self.places, value, place as u32);
        Ok(NODES + place as u64)
    }

    fn make_room(&mut self, place: usize) -> Result<(), NoMemory>
        ensures { self.new ≡ self.old }
    {
        if place < self.places.len() {
            return Ok(());
        }
        self.widen()?;
        Ok(())
    }

    #[inline(never)]
    fn widen(&mut self) -> Result<(), NoMemory>
        ensures { self.new ≡ self.old }
    {
        let count = self.places.len().saturating_mul(2).max(64);
        let alloc = *self.values.allocator();
        let mut places = vec![in alloc; 0u32; count]?;
        for i in 0..self.values.len().min(4294967295) {
            mark(&mut places, self.values[i], i as u32);
        }
        self.places = places;
        Ok(())
    }
}

/// Notes the place of a leaf.
fn mark(places: &mut [u32], value: i128, place: u32) {
    let width = places.len();
    if width > 0 {
        places[hash_of(value) % width] = place;
    }
}

/// A hash of a leaf.
fn hash_of(value: i128) -> usize {
    let bits = value.cast_unsigned();
    let low = (bits % 18446744073709551616) as u64;
    let high = (bits / 18446744073709551616 % 18446744073709551616) as u64;
    let mixed = (low ^ high.wrapping_mul(0xd6e8_feb8_6659_fd93)).wrapping_mul(
        0x9e37_79b9_7f4a_7c15,
    );
    (mixed >> 32) as usize
}

/// The leaf of a word that holds it.
#[inline(always)]
fn leaf_of(word: u64) -> i128
    ensures { result ≡ pos word -ℤ pos 9223372036854775808 }
{
    word as i128 - ZERO
}

/// Whether a word says its part by itself.
#[inline(always)]
pub fn is_plain(word: u64) -> bool
    ensures { OnTrue result (IsPlain word) }
{
    word < NODES || word >= LEAVES
}

/// The word that holds a leaf.
#[inline(always)]
fn word_of(value: i128) -> u64
    requires from { negsuc 9223372036854775807 ≤ℤ value }
    requires to { value <ℤ pos 9223372036854775808 }
    ensures { pos result ≡ value +ℤ pos 9223372036854775808 }
{
    (value + ZERO) as u64
}

/// The word of a part that has one by itself.
#[inline(always)]
pub fn plain_word(part: Part) -> Option<u64>
    ensures { IfSome result (λ w. IsPlain w × ((wide : List ℤ) → word_part wide w ≡ part)) }
{
    match part {
        Part::At(at) => {
            if at < 4294967296 {
                Some(at as u64)
            } else {
                None
            }
        }
        Part::Leaf(value) => {
            if value >= -9223372028264841216 && value < ZERO {
                Some(word_of(value))
            } else {
                None
            }
        }
    }
}

/// The part of a word that says it by itself.
#[inline(always)]
pub fn part_of(word: u64) -> Part
    requires { IsPlain word }
    ensures { result ≡ word_part [] word }
{
    if word >= LEAVES {
        return Part::Leaf(leaf_of(word));
    }
    Part::At(word as usize)
}
