//! The lines of the files.
//!
//! A line that begins with `#` is a remark. A line `text NAME` begins the text of a model, and the lines behind it are its lines, each
//! behind a `|`. The other lines ask for figures of the model, or of the book that was begun last:
//!
//! | Line | What is printed |
//! |---|---|
//! | `range` | the least return, the top, and the ticks that a backup may lose |
//! | `follow A O A O ..` | the initial weights, and those after each action and joint observation |
//! | `uniform COUNT DEPTH SEED`, `sweep COUNT DEPTH SEED` | the beliefs that are sampled so |
//! | `plan BELIEFS DEPTH STAGES SEED EXPLORE PRUNE` | the events of the run of one thread; EXPLORE is 1 for actions in turn, PRUNE 1 to prune, and else 0 |
//! | `summary BELIEFS DEPTH STAGES SEED EXPLORE PRUNE` | its numbers |
//! | `book BELIEFS DEPTH STAGES SEED EXPLORE PRUNE` | what stands in a new book |
//! | `other` | the book and the other book change places |
//! | `room N` | backups keep so many projections from now on |
//! | `pick WORD` | the belief that the word picks |
//! | `turn WORD BACK` | what a settle of the backup at that belief prints, on the edition so far behind the latest one |
//! | `backup BELIEF EDITION` | the backup, and the vectors of all actions with its links |
//! | `settle BELIEF EDITION`, `settle_other BELIEF EDITION` | the same, what its settle answers, and what stands then; on an edition of the other book |
//! | `prune EDITION`, `prune_other EDITION` | the dominated pairs, what their prune answers, and what stands then; of the other book |
//! | `prune_twice EDITION` | the same, where the first pair is given twice |
//! | `apply EDITION ID ID ..` | which of these pairs apply to the members of the edition, and which members they leave |
//! | `twins ID ID` | the dominated pairs where the first member stands twice in an edition, under these ids |
//! | `members EDITION` | the members of the edition |
//! | `end` | the events of the finished run |
//!
//! An EDITION past the last one stands for the last one.

use crate::beliefs::push_beliefs;
use crate::books::{
    begun, edition_of, push_backup, push_members, push_pick, push_run, push_state, settle, turn,
};
use crate::models::{model_of, push_range};
use crate::numbers::{number_at, numbers_of};
use crate::plans::{options_of, push_plan, push_summary};
use crate::pruning::{prune, prune_twice, push_applied};
use crate::stopped::Stopped;
use crate::twins::push_twins;
use sp_backup::Projections;
use sp_core::Book;
use sp_value::Edition;
use std::alloc::Global;
use std::mem;
use std::sync::Arc;

/// The text of a model, two books, what backups keep, and what is to be printed.
#[derive(Drop)]
pub struct Desk {
    alloc: Global,
    text: Vec<u8>,
    book: Option<Book>,
    other: Option<Book>,
    kept: Projections,
    told: String,
}

impl Desk {
    /// Nothing was read yet.
    pub fn new(alloc: Global) -> Result<Desk, Stopped> {
        Ok(Desk {
            alloc,
            text: Vec::new(alloc),
            book: None,
            other: None,
            kept: Projections::new(alloc, 1024)?,
            told: String::new(alloc),
        })
    }

    /// What the lines asked for.
    pub fn into_told(self) -> String {
        self.told
    }

    /// Takes the next line.
    pub fn take_line(&mut self, line: &str) -> Result<(), Stopped> {
        if line.is_empty() || line.starts_with('#') {
            return Ok(());
        }
        if let Some(rest) = line.strip_prefix('|') {
            self.text.extend_from_slice(rest.as_bytes())?;
            return Ok(self.text.push(b'\n')?);
        }
        let (kind, rest) = line.split_once(' ').unwrap_or((line, ""));
        if kind == "text" {
            self.text.clear();
            return Ok(writeln!(&mut self.told, "{line}")?);
        }
        let numbers = numbers_of(self.alloc, rest)?;
        self.ask(kind, numbers.as_slice())
    }

    /// Does what a line of this kind asks for.
    fn ask(&mut self, kind: &str, numbers: &[u64]) -> Result<(), Stopped> {
        match kind {
            "range" | "follow" | "uniform" | "sweep" => self.ask_model(kind, numbers),
            "plan" | "summary" | "book" => self.ask_plan(kind, numbers),
            "other" => Ok(mem::swap(&mut self.book, &mut self.other)),
            "room" => self.make_room(number_at(numbers, 0)?),
            "settle_other" | "prune_other" => self.ask_both(kind, numbers),
            "end" => self.end(),
            _ => self.ask_book(kind, numbers),
        }
    }

    /// Tells what a line asks of the model.
    fn ask_model(&mut self, kind: &str, numbers: &[u64]) -> Result<(), Stopped> {
        let model = model_of(self.alloc, self.text.as_slice())?;
        match kind {
            "range" => push_range(&mut self.told, &model),
            _ => push_beliefs(&mut self.told, self.alloc, &model, kind, numbers),
        }
    }

    /// Plans the model, or begins a book of it.
    fn ask_plan(&mut self, kind: &str, numbers: &[u64]) -> Result<(), Stopped> {
        let options = options_of(numbers)?;
        let model = model_of(self.alloc, self.text.as_slice())?;
        match kind {
            "plan" => push_plan(&mut self.told, self.alloc, model, options),
            "summary" => push_summary(&mut self.told, self.alloc, model, options),
            _ => {
                let book = begun(self.alloc, model, options)?;
                push_state(&mut self.told, &book)?;
                self.book = Some(book);
                Ok(())
            }
        }
    }

    /// Lets backups keep so much.
    fn make_room(&mut self, capacity: u64) -> Result<(), Stopped> {
        if capacity == 0 {
            return Err(Stopped);
        }
        self.kept = Projections::new(self.alloc, capacity)?;
        Ok(())
    }

    /// Does what a line asks of the book.
    fn ask_book(&mut self, kind: &str, numbers: &[u64]) -> Result<(), Stopped> {
        let told = &mut self.told;
        match &mut self.book {
            Some(book) => ask_of(told, self.alloc, book, &mut self.kept, kind, numbers),
            None => Err(Stopped),
        }
    }

    /// Does what a line asks of the book with an edition of the other one.
    fn ask_both(&mut self, kind: &str, numbers: &[u64]) -> Result<(), Stopped> {
        let told = &mut self.told;
        match (&mut self.book, &self.other) {
            (Some(book), Some(other)) => {
                if kind == "prune_other" {
                    let base = edition_of(other, number_at(numbers, 0)?)?;
                    return prune(told, self.alloc, book, &base);
                }
                let belief = number_at(numbers, 0)?;
                let base = edition_of(other, number_at(numbers, 1)?)?;
                settle(told, self.alloc, book, &base, &mut self.kept, belief)
            }
            _ => Err(Stopped),
        }
    }

    /// Tells the run of the book.
    fn end(&mut self) -> Result<(), Stopped> {
        match self.book.take() {
            Some(book) => push_run(&mut self.told, book),
            None => Err(Stopped),
        }
    }
}

/// Does what a line of this kind asks of a book.
fn ask_of(
    text: &mut String,
    alloc: Global,
    book: &mut Book,
    kept: &mut Projections,
    kind: &str,
    numbers: &[u64],
) -> Result<(), Stopped> {
    let first = number_at(numbers, 0)?;
    match kind {
        "pick" => push_pick(text, book, first),
        "turn" => turn(text, alloc, book, kept, first, number_at(numbers, 1)?),
        "twins" => push_twins(text, alloc, book.latest(), first, number_at(numbers, 1)?),
        "backup" => {
            let base = edition_of(book, number_at(numbers, 1)?)?;
            push_backup(text, alloc, &base, kept, first)
        }
        "settle" => {
            let base = edition_of(book, number_at(numbers, 1)?)?;
            settle(text, alloc, book, &base, kept, first)
        }
        _ => {
            let base = edition_of(book, first)?;
            ask_edition(text, alloc, book, &base, kind, numbers)
        }
    }
}

/// Does what a line of this kind asks of a book and its edition.
fn ask_edition(
    text: &mut String,
    alloc: Global,
    book: &mut Book,
    base: &Arc<Edition>,
    kind: &str,
    numbers: &[u64],
) -> Result<(), Stopped> {
    match kind {
        "members" => push_members(text, alloc, base),
        "prune" => prune(text, alloc, book, base),
        "prune_twice" => prune_twice(text, alloc, book, base),
        "apply" => {
            let ids = numbers.get(1..).ok_or(Stopped)?;
            push_applied(text, alloc, base, ids)
        }
        _ => Err(Stopped),
    }
}
