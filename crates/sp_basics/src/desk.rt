//! The lines of the file.
//!
//! A line that begins with `#` is a remark. Others make a text, or ask for something, which is printed behind the line itself:
//!
//! | Line | What it says |
//! |---|---|
//! | `text` | a text begins, which has no bytes |
//! | `\|BYTES` | it goes on with these bytes and a line end |
//! | `\BYTES` | it goes on with these bytes |
//! | `byte N` | it goes on with this byte |
//! | `counted N` | it goes on with N bytes: 0 to 250, again and again |
//! | `tokens` | the tokens of the text, each as its kind and the two ends of its span, or the place of the byte that is refused |
//! | `ticks WORD` | the ticks of the word, or why it has none |
//! | `decimal N` | the decimal of so many ticks |
//! | `generated N` | the generated model of this number |
//! | `uniform COUNT WORD ..`, `sweep COUNT WORD ..` | the actions, of so many, that are chosen in turn by these words |
//! | `listed COUNT LENGTH NUMBER .. WORD ..` | the same by a list of so many numbers |
//! | `whole NAME LIMIT K ..` | what is read of a file in memory, where the K-th reads fail: `empty`, or `text`, which is the text |
//! | `written MOST K ..` | what a sink in memory has of the text, which takes so many bytes at once, and whose K-th writes fail |
//! | `adapted COUNT TAKES .. LENGTH ..` | what is answered to the writes of so many first bytes of the text each, where the writer's calls take so many bytes, COUNT of them, and then fail |
//! | `file NAME LIMIT` | what is read of a file |
//! | `part NAME AT COUNT` | what one read of so many bytes gives |

use crate::adapters::{push_adapted, push_file, push_part};
use crate::choices::{push_listed, push_sweep, push_uniform};
use crate::files::{add_counted, push_read, push_written};
use crate::stopped::Stopped;
use crate::words::{numbers_of, push_decimal, push_generated, push_ticks, push_tokens};
use sp_outside::Store;
use std::alloc::Global;

/// The text that was made, and what is to be printed.
#[derive(Drop)]
pub struct Desk {
    alloc: Global,
    text: Vec<u8>,
    told: String,
}

impl Desk {
    /// Nothing was read yet.
    pub fn new(alloc: Global) -> Desk {
        Desk {
            alloc,
            text: Vec::new(alloc),
            told: String::new(alloc),
        }
    }

    /// What the lines asked for.
    pub fn told(&self) -> &str {
        self.told.as_str()
    }

    /// Takes the next line.
    pub fn take_line<S: Store>(&mut self, store: &mut S, line: &str) -> Result<(), Stopped> {
        if line.is_empty() || line.starts_with('#') {
            return Ok(());
        }
        if let Some(rest) = line.strip_prefix('|') {
            self.text.extend_from_slice(rest.as_bytes())?;
            self.text.push(b'\n')?;
            return Ok(());
        }
        if let Some(rest) = line.strip_prefix('\\') {
            self.text.extend_from_slice(rest.as_bytes())?;
            return Ok(());
        }
        self.take_command(store, line)
    }

    /// Takes a line that isn't bytes of a text.
    fn take_command<S: Store>(&mut self, store: &mut S, line: &str) -> Result<(), Stopped> {
        let (kind, rest) = line.split_once(' ').unwrap_or((line, ""));
        match kind {
            "text" => {
                self.text.clear();
                Ok(())
            }
            "byte" => Ok(self.text.push(rest.parse::<u8>()?)?),
            "counted" => add_counted(&mut self.text, rest.parse::<u64>()?),
            _ => {
                writeln!(&mut self.told, "{line}")?;
                self.ask(store, kind, rest)
            }
        }
    }

    /// Tells what a line of this kind asks for.
    fn ask<S: Store>(&mut self, store: &mut S, kind: &str, rest: &str) -> Result<(), Stopped> {
        match kind {
            "tokens" => push_tokens(&mut self.told, self.alloc, self.text.as_slice()),
            "ticks" => push_ticks(&mut self.told, rest),
            "decimal" => push_decimal(&mut self.told, self.alloc, rest),
            "whole" => push_read(&mut self.told, self.alloc, self.text.as_slice(), rest),
            "file" => push_file(&mut self.told, self.alloc, store, rest),
            "part" => push_part(&mut self.told, self.alloc, store, rest),
            _ => self.ask_by_numbers(kind, rest),
        }
    }

    /// Tells what a line of this kind asks for, which has nothing but numbers.
    fn ask_by_numbers(&mut self, kind: &str, rest: &str) -> Result<(), Stopped> {
        let numbers = numbers_of(self.alloc, rest)?;
        let (first, others) = numbers.as_slice().split_first().ok_or(Stopped)?;
        match kind {
            "generated" => push_generated(&mut self.told, self.alloc, *first),
            "uniform" => push_uniform(&mut self.told, *first, others),
            "sweep" => push_sweep(&mut self.told, *first, others),
            "listed" => push_listed(&mut self.told, self.alloc, *first, others),
            "written" => push_written(
                &mut self.told,
                self.alloc,
                self.text.as_slice(),
                *first,
                others,
            ),
            "adapted" => push_adapted(&mut self.told, self.text.as_slice(), numbers.as_slice()),
            _ => Err(Stopped),
        }
    }
}
