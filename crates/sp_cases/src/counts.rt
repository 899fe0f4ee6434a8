//! What an audit may count.

use crate::lines::{push_number, push_text};
use crate::stopped::Stopped;
use std::alloc::Global;

/// The least and the greatest of some numbers.
#[derive(Clone, Copy, Drop)]
struct Range {
    least: u64,
    most: u64,
}

impl Range {
    /// Two numbers, with a space between them.
    fn of(text: &str) -> Result<Range, Stopped> {
        let (least, most) = text.split_once(' ').ok_or(Stopped)?;
        Ok(Range {
            least: least.parse::<u64>()?,
            most: most.parse::<u64>()?,
        })
    }

    /// Adds whether the number behind this word of a line is one of these, and else the number.
    fn push(self, alloc: Global, out: &mut Vec<u8>, line: &str, word: &str) -> Result<(), Stopped> {
        let number = number_behind(line, word)?;
        if self.least <= number && number <= self.most {
            push_text(alloc, out, word, "within")
        } else {
            push_number(alloc, out, word, number)
        }
    }
}

/// The number behind a word of a line.
fn number_behind(line: &str, word: &str) -> Result<u64, Stopped> {
    let mut before = "";
    for part in line.split(' ') {
        if before == word {
            return Ok(part.parse::<u64>()?);
        }
        before = part;
    }
    Err(Stopped)
}

/// How many events, editions and sessions there may be.
#[derive(Clone, Copy, Drop)]
pub struct Counts {
    events: Range,
    editions: Range,
    sessions: Range,
}

impl Counts {
    /// None of any.
    pub fn new() -> Counts {
        let none = Range { least: 0, most: 0 };
        Counts {
            events: none,
            editions: none,
            sessions: none,
        }
    }

    /// Takes what a line of this kind says.
    pub fn take(&mut self, kind: &str, rest: &str) -> Result<(), Stopped> {
        let range = Range::of(rest)?;
        match kind {
            "events" => self.events = range,
            "editions" => self.editions = range,
            _ => self.sessions = range,
        }
        Ok(())
    }

    /// Adds whether the counts of an audit's line are these.
    pub fn push(&self, alloc: Global, out: &mut Vec<u8>, line: &str) -> Result<(), Stopped> {
        self.events.push(alloc, out, line, "events")?;
        self.editions.push(alloc, out, line, "editions")?;
        self.sessions.push(alloc, out, line, "sessions")
    }
}
