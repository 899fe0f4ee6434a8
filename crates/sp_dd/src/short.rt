//! A walk that remembers nothing at first: short walks are done before it would pay.
ghost use Rattle.std.specs.Prelude.{◌≡◌, ◌<◌, [], length, IfOk, OnOk, IfSome};
ghost use Rattle.sp_dd.specs.Func.{size_of};
ghost use Rattle.sp_dd.specs.Walks.{whole, with_slot, IsFromSlot, ArePositive};
ghost use Rattle.sp_dd.specs.Kept.{AreKnown};
ghost use Rattle.sp_dd.specs.Wording.{word_part, IsPlain};

use crate::NoMemory;
use crate::draft::Draft;
use crate::leaves::plain_word;
use crate::memo::{Memo, State};
use crate::part::Part;
use crate::slots::Scope;
use crate::walk::{Source, Step, walk_branch};
use crate::words::Words;
use std::alloc::Global;

/// Through how many states a walk goes before it remembers any.
pub const FEW: usize = 8;

/// Room for the parts of nodes in the making.
const STACK: usize = 64;

/// What a long walk remembers, and room for the parts of nodes in the making.
#[derive(Drop)]
pub struct Tables {
    pub memo: Memo,
    pub stack: Words,
}

/// A short walk came to a leaf that no word holds by itself, or found no memory.
#[derive(Clone, Copy, Drop)]
pub struct Stopped;

impl From<NoMemory> for Stopped {
    fn from(_: NoMemory) -> Self {
        Stopped
    }
}

/// The nodes that a walk makes, and through how many more states it goes before it remembers any.
#[derive(Drop)]
pub struct Making {
    pub draft: Draft,
    pub tables: Option<Tables>,
    pub left: usize,
}

impl Tables {
    /// Nothing remembered.
    fn new(alloc: Global) -> Result<Tables, NoMemory>
        ensures { IfOk result (λ t. t.memo ≡ []) }
    {
        let memo = Memo::new(alloc, 0)?;
        let stack = Words::with_room(alloc, STACK)?;
        Ok(Tables { memo, stack })
    }
}

/// Adds the nodes of the function of a state that branches on a slot to those in the making. Answers the word of the function's part.
#[cycle(short)]
pub fn walk_short<S: Source>(
    scope: &Scope,
    source: &S,
    making: &mut Making,
    state: State,
    slot: u64,
) -> Result<u64, Stopped>
    requires state { S.IsState source.now state }
    requires sizes { S.sizes source.now ≡ scope.now.sizes }
    requires positive { ArePositive scope.now.sizes }
    requires known { IfSome making.old.tables (λ t. AreKnown scope.now.sizes (S.meaning source.now) t.memo making.old.draft) }
    requires slot { slot ≡ S.slot source.now state }
    requires within { slot < length scope.now.sizes }
    requires later { IsFromSlot slot (S.meaning source.now state) }
    ensures plain { IfOk result (λ w. IsPlain w) }
    ensures made { IfOk result (λ w. whole scope.now.sizes (S.meaning source.now state) making.old.draft ≡ (making.new.draft, word_part [] w)) }
    ensures known { OnOk result (IfSome making.new.tables (λ t. AreKnown scope.now.sizes (S.meaning source.now) t.memo making.new.draft)) }
{
    if making.left == 0 {
        return walk_long(scope, source, making, state, slot);
    }
    if scope.size(slot) != 2 {
        return walk_long(scope, source, making, state, slot);
    }
    making.left -= 1;
    let first = short_part(scope, source, making, state, slot, 0)?;
    let second = short_part(scope, source, making, state, slot, 1)?;
    let word = making.draft.join_two(slot, first, second)?;
    Ok(word)
}

/// The word of the part of a state's function where its slot has a value.
#[cycle(short)]
#[inline(always)]
fn short_part<S: Source>(
    scope: &Scope,
    source: &S,
    making: &mut Making,
    state: State,
    slot: u64,
    value: u64,
) -> Result<u64, Stopped>
    requires state { S.IsState source.now state }
    requires sizes { S.sizes source.now ≡ scope.now.sizes }
    requires positive { ArePositive scope.now.sizes }
    requires known { IfSome making.old.tables (λ t. AreKnown scope.now.sizes (S.meaning source.now) t.memo making.old.draft) }
    requires slot { slot ≡ S.slot source.now state }
    requires within { slot < length scope.now.sizes }
    requires value { value < size_of scope.now slot }
    ensures plain { IfOk result (λ w. IsPlain w) }
    ensures made { IfOk result (λ w. whole scope.now.sizes (λ π. S.meaning source.now state (with_slot slot value π)) making.old.draft ≡ (making.new.draft, word_part [] w)) }
    ensures known { OnOk result (IfSome making.new.tables (λ t. AreKnown scope.now.sizes (S.meaning source.now) t.memo making.new.draft)) }
{
    let next = source.next(state, slot, value);
    match source.step(next) {
        Step::Leaf(leaf) => word_in(Part::Leaf(leaf)),
        Step::Branch(later) => walk_short(scope, source, making, next, later),
    }
}

/// The same as a short walk, with all states remembered.
#[inline(never)]
fn walk_long<S: Source>(
    scope: &Scope,
    source: &S,
    making: &mut Making,
    state: State,
    slot: u64,
) -> Result<u64, Stopped>
    requires state { S.IsState source.now state }
    requires sizes { S.sizes source.now ≡ scope.now.sizes }
    requires positive { ArePositive scope.now.sizes }
    requires known { IfSome making.old.tables (λ t. AreKnown scope.now.sizes (S.meaning source.now) t.memo making.old.draft) }
    requires slot { slot ≡ S.slot source.now state }
    requires within { slot < length scope.now.sizes }
    requires later { IsFromSlot slot (S.meaning source.now state) }
    ensures plain { IfOk result (λ w. IsPlain w) }
    ensures made { IfOk result (λ w. whole scope.now.sizes (S.meaning source.now state) making.old.draft ≡ (making.new.draft, word_part [] w)) }
    ensures known { OnOk result (IfSome making.new.tables (λ t. AreKnown scope.now.sizes (S.meaning source.now) t.memo making.new.draft)) }
{
    match &mut making.tables {
        Some(tables) => {
            let part = walk_tables(scope, source, &mut making.draft, tables, state, slot)?;
            word_in(part)
        }
        None => {
            let mut tables = Tables::new(making.draft.allocator())?;
            let part = walk_tables(scope, source, &mut making.draft, &mut tables, state, slot)?;
            making.tables = Some(tables);
            word_in(part)
        }
    }
}

/// The word of a part that has one by itself.
#[inline(always)]
fn word_in(part: Part) -> Result<u64, Stopped>
    ensures plain { IfOk result (λ w. IsPlain w) }
    ensures same { IfOk result (λ w. word_part [] w ≡ part) }
{
    match plain_word(part) {
        Some(word) => Ok(word),
        None => Err(Stopped),
    }
}

/// The part of the function of a state that branches on a slot, with what tables remember.
fn walk_tables<S: Source>(
    scope: &Scope,
    source: &S,
    draft: &mut Draft,
    tables: &mut Tables,
    state: State,
    slot: u64,
) -> Result<Part, NoMemory>
    requires state { S.IsState source.now state }
    requires sizes { S.sizes source.now ≡ scope.now.sizes }
    requires positive { ArePositive scope.now.sizes }
    requires known { AreKnown scope.now.sizes (S.meaning source.now) tables.old.memo draft.old }
    requires slot { slot ≡ S.slot source.now state }
    requires within { slot < length scope.now.sizes }
    requires later { IsFromSlot slot (S.meaning source.now state) }
    ensures made { IfOk result (λ a. whole scope.now.sizes (S.meaning source.now state) draft.old ≡ (draft.new, a)) }
    ensures known { OnOk result (AreKnown scope.now.sizes (S.meaning source.now) tables.new.memo draft.new) }
{
    let start = tables.stack.len();
    walk_branch(
        scope,
        source,
        &mut tables.memo,
        draft,
        &mut tables.stack,
        state,
        slot,
    )?;
    let part = tables.stack.get(start);
    tables.stack.truncate(start);
    Ok(part)
}
