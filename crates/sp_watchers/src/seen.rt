//! What one viewer gave.

use crate::tally::Tally;
use sp_core::Book;
use sp_dd::NoMemory;
use sp_value::Edition;
use std::alloc::Global;
use std::sync::Arc;

/// The editions that a viewer gave, each new number once.
#[derive(Drop)]
pub struct Seen {
    editions: Vec<Arc<Edition>>,
    tally: Tally,
    /// Whether it gave another edition of the same number, or one that wasn't published yet.
    strayed: bool,
}

impl Seen {
    /// It gave nothing yet.
    pub fn new(alloc: Global) -> Seen {
        Seen {
            editions: Vec::new(alloc),
            tally: Tally::new(),
            strayed: false,
        }
    }

    /// The next edition that it gave, with the number that it was told before.
    pub fn note(&mut self, edition: Arc<Edition>, told: u64) -> Result<(), NoMemory> {
        let number = edition.number();
        self.tally.note(number, told);
        if let Some(last) = self.editions.last() {
            if last.number() == number {
                if !last.same(&edition) {
                    self.strayed = true;
                }
                return Ok(());
            }
        }
        self.editions.push(edition).map_err(|_| NoMemory)
    }

    /// Where a number is that of the newest edition that is published now, what was given before isn't newer.
    pub fn compare(&mut self, number: u64, is_newest: bool) {
        if is_newest && self.tally.last > number {
            self.strayed = true;
        }
    }

    /// How its numbers came.
    pub fn tally(&self) -> Tally {
        self.tally
    }

    /// Whether each edition that it gave is the book's of that number, and was published before it gave it.
    pub fn is_of(&self, book: &Book) -> bool {
        !self.strayed && self.editions.iter().all(|edition| is_in(book, edition))
    }
}

/// Whether a book has this edition at its number.
fn is_in(book: &Book, edition: &Arc<Edition>) -> bool {
    match book.edition(edition.number()) {
        Some(other) => other.same(edition),
        None => false,
    }
}
