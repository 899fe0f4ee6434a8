//! What is remembered of the states of a walk.
ghost use Rattle.std.specs.Prelude.{◌≡◌, ◌<◌, ◌↔◌, IsTrue, IfSome, IfOk, OnOk, OnErr, [], ◌∷◌, ◌++◌, length};
ghost use Rattle.std.specs.Bool.{OnTrue};
ghost use Rattle.sp_dd.specs.Kept.{made_entry, HasEntry, HasCell, IsCellOf};
ghost use Rattle.sp_dd.specs.Wording.{AreLeavesGrown};

use crate::NoMemory;
use crate::leaves::Leaves;
use crate::marks::{Marks, REACH};
use crate::mixing::{mix, mix_part, upper};
use crate::part::Part;
use std::alloc::Global;
use std::marker::Model;

/// Which of two functions a walk has chosen, where it chooses between them by the value of a slot.
#[derive(Clone, Copy)]
pub enum Choice {
    /// None yet, or the walk goes through both.
    Open,
    Left,
    Right,
}

impl Choice {
    /// Whether two choices are one.
    pub fn is_same(self, other: Choice) -> bool
        ensures { IsTrue result ↔ self ≡ other }
    {
        match (self, other) {
            (Choice::Open, Choice::Open) => true,
            (Choice::Left, Choice::Left) => true,
            (Choice::Right, Choice::Right) => true,
            _ => false,
        }
    }
}

/// A state of a walk: a part of each of two lists of nodes, and which of them it has chosen.
#[derive(Clone, Copy)]
pub struct State {
    pub left: Part,
    pub right: Part,
    pub choice: Choice,
}

impl State {
    /// A hash of the state.
    #[inline(always)]
    pub fn hash(&self) -> u64 {
        mix(
            mix_part(
                mix_part(first_hash(self.choice), &self.left).rotate_left(32),
                &self.right,
            ),
            0,
        )
    }
}

/// A state and its part.
#[derive(Clone, Copy)]
pub struct Entry {
    pub state: State,
    pub part: Part,
}

/// An entry in words.
#[derive(Clone, Copy)]
pub struct Cell {
    pub left: u64,
    pub right: u64,
    pub part: u64,
    pub choice: Choice,
}

/// States with their parts. A state is looked for by its hash, and may be forgotten.
#[derive(Drop)]
pub struct Memo {
    cells: Vec<Cell>,
    marks: Marks,
    leaves: Leaves,
}

impl Model for Memo {
    ghost use Rattle.std.specs.Prelude.{List, length};
    ghost use Rattle.sp_dd.specs.declared.memo.Entry.{Entry};
    ghost use Rattle.sp_dd.specs.Kept.{entries_of, AreCells};

    ghost Value = { List Entry };

    ghost view = { λ m. entries_of m.leaves m.cells.items };

    ghost invariant = { λ m. AreCells (length m.leaves) m.cells.items };
}

/// How many states are looked for one by one.
const FEW: usize = 8;

impl Memo {
    /// Nothing, with room for that many states.
    pub fn new(alloc: Global, room: usize) -> Result<Memo, NoMemory>
        ensures { IfOk result (λ m. m ≡ []) }
    {
        let leaves = Leaves::new(alloc);
        if room <= FEW {
            return Ok(Memo {
                cells: Vec::new(alloc),
                marks: Marks::new(alloc),
                leaves,
            });
        }
        let marks = Marks::with_room(alloc, room)?;
        let cells = Vec::with_capacity(alloc, room)?;
        Ok(Memo {
            cells,
            marks,
            leaves,
        })
    }

    /// What is remembered of a state.
    #[inline(always)]
    pub fn find(&self, state: &State, hash: u64) -> Option<Part>
        ensures { IfSome result (λ a. HasEntry self.now state.now a) }
    {
        let left = self.leaves.word(state.left)?;
        let right = self.leaves.word(state.right)?;
        let place = seek(
            &self.marks,
            &self.cells,
            upper(hash),
            left,
            right,
            state.choice,
        )?;
        let cell = self.cells[place];
        Some(self.leaves.part(cell.part))
    }

    /// Remembers a state's part.
    #[inline(always)]
    pub fn keep(&mut self, state: State, hash: u64, part: Part) -> Result<(), NoMemory>
        ensures ok { OnOk result (self.new ≡ self.old ++ made_entry state part ∷ []) }
        ensures err { OnErr result (self.new ≡ self.old) }
    {
        self.mark(hash)?;
        let cell = cell_of(&mut self.leaves, state, part)?;
        self.cells.push(cell).map_err(|_| NoMemory)?;
        Ok(())
    }

    /// Marks the place of the next cell, unless the cells are few.
    #[inline(always)]
    fn mark(&mut self, hash: u64) -> Result<(), NoMemory>
        ensures { self.new ≡ self.old }
    {
        let place = self.cells.len();
        if self.marks.is_empty() {
            if place < FEW {
                return Ok(());
            }
            mark_all(&mut self.marks, &self.cells)?;
        }
        self.marks.note(upper(hash), place)?;
        Ok(())
    }
}

/// Marks all cells.
#[inline(never)]
fn mark_all(marks: &mut Marks, cells: &[Cell]) -> Result<(), NoMemory> {
    for place in 0..cells.len() {
        marks.note(hash_of(cells[place]), place)?;
    }
    Ok(())
}

/// The hash of a cell's state.
fn hash_of(cell: Cell) -> u32 {
    upper(mix(
        mix(
            mix(first_hash(cell.choice), cell.left).rotate_left(32),
            cell.right,
        ),
        0,
    ))
}

/// The hash of a choice.
#[inline(always)]
fn first_hash(choice: Choice) -> u64 {
    match choice {
        Choice::Open => 1,
        Choice::Left => 2,
        Choice::Right => 3,
    }
}

/// A state and its part in words.
#[inline(always)]
fn cell_of(leaves: &mut Leaves, state: State, part: Part) -> Result<Cell, NoMemory>
    ensures ok { IfOk result (λ cell. AreLeavesGrown leaves.old leaves.new × IsCellOf leaves.new state part cell) }
    ensures err { OnErr result (AreLeavesGrown leaves.old leaves.new) }
{
    let left = leaves.keep(state.left)?;
    let right = leaves.keep(state.right)?;
    let part = leaves.keep(part)?;
    Ok(Cell {
        left,
        right,
        part,
        choice: state.choice,
    })
}

/// The place of the cell of a state: among the first few, or where a mark leads.
#[inline(always)]
fn seek(
    marks: &Marks,
    cells: &[Cell],
    hash: u32,
    left: u64,
    right: u64,
    choice: Choice,
) -> Option<usize>
    ensures { IfSome result (λ k. HasCell cells.now left right choice k) }
{
    if marks.is_empty() {
        return seek_first(cells, left, right, choice);
    }
    for step in 0..REACH {
        let mark = marks.at(hash, step);
        if mark.after == 0 {
            return None;
        }
        let place = (mark.after - 1) as usize;
        if mark.hash == hash && is_cell(cells, place, left, right, choice) {
            return Some(place);
        }
    }
    None
}

fn seek_first(cells: &[Cell], left: u64, right: u64, choice: Choice) -> Option<usize>
    ensures { IfSome result (λ k. HasCell cells.now left right choice k) }
{
    for place in 0..cells.len() {
        if is_cell(cells, place, left, right, choice) {
            return Some(place);
        }
    }
    None
}

/// Whether a place has the cell of a state.
#[inline(always)]
fn is_cell(cells: &[Cell], place: usize, left: u64, right: u64, choice: Choice) -> bool
    ensures { OnTrue result (HasCell cells.now left right choice place) }
{
    if place >= cells.len() {
        return false;
    }
    let cell = cells[place];
    cell.left == left && cell.right == right && cell.choice.is_same(choice)
}
