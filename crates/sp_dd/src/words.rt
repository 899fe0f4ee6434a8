//! Lists of parts in words of 64 bits.
ghost use Rattle.std.specs.Prelude.{◌≡◌, ◌<◌, ◌≤◌, ◌↔◌, IsTrue, [], ◌∷◌, ◌++◌, length, take, drop, get_or, pos, IfOk, OnOk, OnErr};
ghost use Rattle.sp_dd.specs.declared.part.Part.TheVariants.{Leaf};
ghost use Rattle.sp_dd.specs.NodeLists.{all_are, first_part};
ghost use Rattle.sp_dd.specs.Hashes.{part_hash};
ghost use Rattle.sp_dd.specs.Wording.{word_part, IsPlain};

use crate::NoMemory;
use crate::leaves::{Leaves, is_plain, part_of};
use crate::mixing::{mix, mix_part};
use crate::part::Part;
use std::alloc::Global;
use std::marker::Model;

/// A list of parts, of which each takes one word.
#[derive(Drop)]
pub struct Words {
    words: Vec<u64>,
    leaves: Leaves,
}

impl Model for Words {
    ghost use Rattle.std.specs.Prelude.{List, length};
    ghost use Rattle.sp_dd.specs.declared.part.Part.{Part};
    ghost use Rattle.sp_dd.specs.Wording.{parts_of, AreWordsWithin};

    ghost Value = { List Part };

    ghost view = { λ a. parts_of a.leaves a.words.items };

    ghost invariant = { λ a. AreWordsWithin (length a.leaves) a.words.items };
}

impl Words {
    /// No parts.
    pub fn new(alloc: Global) -> Words
        ensures { result ≡ [] }
    {
        Words {
            words: Vec::new(alloc),
            leaves: Leaves::new(alloc),
        }
    }

    /// No parts, with room for that many.
    pub fn with_room(alloc: Global, room: usize) -> Result<Words, NoMemory>
        ensures { IfOk result (λ a. a ≡ []) }
    {
        let words = Vec::with_capacity(alloc, room)?;
        Ok(Words {
            words,
            leaves: Leaves::new(alloc),
        })
    }

    /// How many parts there are.
    #[inline(always)]
    pub fn len(&self) -> usize
        ensures { result ≡ length self.now }
    {
        self.words.len()
    }

    /// The part at a place.
    #[inline(always)]
    pub fn get(&self, at: usize) -> Part
        requires { at < length self.now }
        ensures { result ≡ get_or self.now at (Leaf (pos 0)) }
    {
        self.leaves.part(self.words[at])
    }

    /// One more part.
    #[inline(always)]
    pub fn push(&mut self, part: Part) -> Result<(), NoMemory>
        ensures ok { OnOk result (self.new ≡ self.old ++ part ∷ []) }
        ensures err { OnErr result (self.new ≡ self.old) }
    {
        let word = self.leaves.keep(part)?;
        self.words.push(word).map_err(|_| NoMemory)?;
        Ok(())
    }

    /// One more part, that at a place of another list.
    #[inline(always)]
    pub fn push_from(&mut self, other: &Words, at: usize) -> Result<(), NoMemory>
        requires { at < length other.now }
        ensures ok { OnOk result (self.new ≡ self.old ++ get_or other.now at (Leaf (pos 0)) ∷ []) }
        ensures err { OnErr result (self.new ≡ self.old) }
    {
        let word = other.words[at];
        if is_plain(word) {
            self.words.push(word).map_err(|_| NoMemory)?;
            return Ok(());
        }
        self.push(other.get(at))
    }

    /// The first parts.
    #[inline(always)]
    pub fn truncate(&mut self, count: usize)
        requires { count ≤ length self.old }
        ensures { self.new ≡ take count self.old }
    {
        self.words.truncate(count);
    }

    /// The parts of another list from a place on, behind these.
    #[inline(always)]
    pub fn extend(&mut self, other: &Words, from: usize) -> Result<(), NoMemory>
        requires { from ≤ length other.now }
        ensures ok { OnOk result (self.new ≡ self.old ++ drop from other.now) }
        ensures err { OnErr result (self.new ≡ self.old) }
    {
        let count = self.len();
        for i in from..other.len() {
            if self.push_from(other, i).is_err() {
                self.truncate(count);
                return Err(NoMemory);
            }
        }
        Ok(())
    }

    /// Parts behind these.
    pub fn extend_from(&mut self, parts: &[Part]) -> Result<(), NoMemory>
        ensures ok { OnOk result (self.new ≡ self.old ++ parts.now) }
        ensures err { OnErr result (self.new ≡ self.old) }
    {
        let count = self.len();
        for i in 0..parts.len() {
            if self.push(parts[i]).is_err() {
                self.truncate(count);
                return Err(NoMemory);
            }
        }
        Ok(())
    }

    /// Whether the parts at two places are one.
    #[inline(always)]
    pub fn same(&self, at: usize, other: &Words, place: usize) -> bool
        requires at { at < length self.now }
        requires place { place < length other.now }
        ensures { IsTrue result ↔ get_or self.now at (Leaf (pos 0)) ≡ get_or other.now place (Leaf (pos 0)) }
    {
        let left = self.words[at];
        let right = other.words[place];
        if is_plain(left) && is_plain(right) {
            return left == right;
        }
        self.get(at).is_same(&other.get(place))
    }

    /// A hash with the part at a place.
    #[inline(always)]
    pub fn mixed_with(&self, hash: u64, at: usize) -> u64
        requires { at < length self.now }
        ensures { result ≡ part_hash hash (get_or self.now at (Leaf (pos 0))) }
    {
        let word = self.words[at];
        if is_plain(word) {
            return mix(hash, word);
        }
        mix_part(hash, &self.get(at))
    }
}

/// One more part, that of a word that says it by itself.
#[inline(always)]
fn push_plain(words: &mut Words, word: u64) -> Result<(), NoMemory>
    requires { IsPlain word }
    ensures ok { OnOk result (words.new ≡ words.old ++ word_part [] word ∷ []) }
    ensures err { OnErr result (words.new ≡ words.old) }
{
    words.words.push(word).map_err(|_| NoMemory)?;
    Ok(())
}

/// Two more parts, of words that say them by themselves.
#[inline(always)]
pub fn push_two_plain(words: &mut Words, left: u64, right: u64) -> Result<(), NoMemory>
    requires left { IsPlain left }
    requires right { IsPlain right }
    ensures ok { OnOk result (words.new ≡ words.old ++ word_part [] left ∷ word_part [] right ∷ []) }
    ensures err { OnErr result (words.new ≡ words.old) }
{
    let count = words.len();
    push_plain(words, left)?;
    if push_plain(words, right).is_err() {
        words.truncate(count);
        return Err(NoMemory);
    }
    Ok(())
}

/// Whether a place has the part of a word that says it by itself.
#[inline(always)]
pub fn has_plain(words: &Words, at: usize, word: u64) -> bool
    requires at { at < length words.now }
    requires plain { IsPlain word }
    ensures { IsTrue result ↔ get_or words.now at (Leaf (pos 0)) ≡ word_part [] word }
{
    let here = words.words[at];
    if is_plain(here) {
        return here == word;
    }
    has_part(words, at, &part_of(word))
}

#[inline(never)]
fn has_part(words: &Words, at: usize, part: &Part) -> bool
    requires { at < length words.now }
    ensures { IsTrue result ↔ get_or words.now at (Leaf (pos 0)) ≡ part.now }
{
    words.get(at).is_same(part)
}
