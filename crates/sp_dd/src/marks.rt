//! Where the entries of a list may stand, by their hashes.
ghost use Rattle.std.specs.Prelude.{◌<◌, length};

use crate::NoMemory;
use std::alloc::Global;

/// One more than the place of an entry, and the entry's hash. A mark of no entry has 0 for its place.
#[derive(Clone, Copy)]
pub struct Mark {
    pub hash: u32,
    pub after: u32,
}

/// How many marks a search looks at.
pub const REACH: u32 = 16;

/// Marks of entries. An entry may be forgotten, and a mark may lead astray: who follows it looks at the entry itself.
#[derive(Drop)]
pub struct Marks {
    marks: Vec<Mark>,
    count: usize,
}

impl Marks {
    /// No marks.
    pub fn new(alloc: Global) -> Marks {
        Marks {
            marks: Vec::new(alloc),
            count: 0,
        }
    }

    /// Room for so many marks, where there is none.
    pub fn with_room(alloc: Global, room: usize) -> Result<Marks, NoMemory> {
        let width = room.max(16).min(2147483648).next_power_of_two();
        let marks = blank(alloc, 2 * width)?;
        Ok(Marks { marks, count: 0 })
    }

    /// Whether there are marks.
    #[inline(always)]
    pub fn is_empty(&self) -> bool {
        self.marks.len() == 0
    }

    /// The mark at which a search comes in a step.
    #[inline(always)]
    pub fn at(&self, hash: u32, step: u32) -> Mark {
        let width = self.marks.len();
        if width == 0 {
            return Mark { hash: 0, after: 0 };
        }
        self.marks[place_in(width, hash, step)]
    }

    /// Marks the place of an entry.
    #[inline(always)]
    pub fn note(&mut self, hash: u32, place: usize) -> Result<(), NoMemory> {
        if place >= 4294967295 {
            return Ok(());
        }
        if self.count >= self.marks.len() / 2 {
            self.widen()?;
        }
        self.count = self.count.wrapping_add(1);
        put(
            &mut self.marks,
            Mark {
                hash,
                after: place as u32 + 1,
            },
        );
        Ok(())
    }

    #[inline(never)]
    fn widen(&mut self) -> Result<(), NoMemory> {
        let width = self.marks.len().saturating_mul(2).max(32);
        let alloc = *self.marks.allocator();
        let mut marks = blank(alloc, width)?;
        for i in 0..self.marks.len() {
            if self.marks[i].after > 0 {
                put(&mut marks, self.marks[i]);
            }
        }
        self.marks = marks;
        Ok(())
    }
}

/// That many marks of no entry.
fn blank(alloc: Global, count: usize) -> Result<Vec<Mark>, NoMemory> {
    let marks = vec![in alloc; Mark { hash: 0, after: 0 }; count]?;
    Ok(marks)
}

/// Where a search looks in a step, in a table whose width is a power of two.
#[inline(always)]
fn place_in(width: usize, hash: u32, step: u32) -> usize
    requires { 0 < width }
    ensures { result < width }
{
    (hash.wrapping_add(step) as usize) & (width - 1)
}

/// Puts a mark at a free place, or else at the first to which its search comes.
#[inline(always)]
fn put(marks: &mut [Mark], mark: Mark) {
    let width = marks.len();
    if width == 0 {
        return;
    }
    for step in 0..REACH {
        let at = place_in(width, mark.hash, step);
        if marks[at].after == 0 {
            marks[at] = mark;
            return;
        }
    }
    let at = place_in(width, mark.hash, 0);
    marks[at] = mark;
}
