//! The lines of a bundle of cases.
//!
//! A line `text NAME` begins a text. The lines behind it are its bytes: `|` with a line of it, `\` with bytes without a line end,
//! and `spaces N`. The other lines make a case:
//!
//! | Line | What it says |
//! |---|---|
//! | `case NAME` | a case begins |
//! | `words LINE` | the words of its command line, cut at each space |
//! | `word TEXT` | one more word, as it is |
//! | `file NAME TEXT` | the file NAME has the bytes of this text |
//! | `read K`, `write K`, `tell K` | the K-th read, the K-th write to out, the K-th write to err fails |
//! | `most N` | out takes at most N bytes at once |
//! | `first N` | only the first N lines of out are printed |
//! | `events A B`, `editions A B`, `sessions A B` | how many of each an audit of the text may count: at least A and at most B |
//! | `status N`, `out`, `err`, `asks JOB`, `takes JOB` | what is wanted; bytes of out and err stand behind the line, as those of a text |
//! | `run` | the call is made, and what it gives is printed, with how many of its two choosers were dropped |
//! | `twice` | the same, and whether a second call gives the same again |
//! | `audited` | the same as `run`, and whether an audit finds the text legal, with counts that it may have |
//! | `held step`, `held backup` | the same, with a gate that holds the first backup until a session made a step, or a second backup was begun; whether it was released in time, and whether all backups of the text passed it |
//! | `held editions` | the same by two workers: the first backup is held until the other worker has made editions, and that one then until the first worker comes again; also whether a backup is on an edition that wasn't the newest any more |
//! | `beginnings` | the call is made on each beginning of its files, of no byte, of one byte and so on |
//! | `job` | what the words ask for is printed, and what the parser alone takes them for |
//!
//! A case of `beginnings` has a line `accepted` with the numbers of the whole file.
//! What is wanted is passed over here: `tools/make-cases` writes it to the file with which the program's output is compared.
//! A line that begins with `#` is a comment.

use crate::case::Case;
use crate::stopped::Stopped;
use sp_outside::Files;
use std::alloc::Global;
use std::sync::Wait;
use std::thread::Threads;

/// The bytes before the first line end, and those behind it.
fn cut(bytes: &[u8]) -> (&[u8], &[u8]) {
    for place in 0..bytes.len() {
        if bytes[place] == b'\n' {
            return (&bytes[..place], &bytes[place + 1..]);
        }
    }
    (bytes, &bytes[bytes.len()..])
}

/// What was read of bundles: the texts, the text that is being read, which is kept if it has a name, and the case that is being made.
#[derive(Drop)]
pub struct Bundle {
    alloc: Global,
    texts: Files,
    name: String,
    text: Vec<u8>,
    case: Case,
}

impl Bundle {
    /// Nothing was read yet.
    pub fn new(alloc: Global) -> Bundle {
        Bundle {
            alloc,
            texts: Files::new(alloc),
            name: String::new(alloc),
            text: Vec::new(alloc),
            case: Case::new(alloc),
        }
    }

    /// Takes each line of the bundles, makes the calls that they ask for, and adds what these give to `out`.
    pub fn take_lines<R: Threads + Wait + Sync>(
        &mut self,
        rt: &R,
        source: &[u8],
        out: &mut Vec<u8>,
    ) -> Result<(), Stopped> {
        let mut rest = source;
        for _ in 0..source.len() {
            if rest.is_empty() {
                return Ok(());
            }
            let (line, more) = cut(rest);
            self.take_line(rt, line, out)?;
            rest = more;
        }
        Ok(())
    }

    /// Takes the next line.
    fn take_line<R: Threads + Wait + Sync>(
        &mut self,
        rt: &R,
        line: &[u8],
        out: &mut Vec<u8>,
    ) -> Result<(), Stopped> {
        match line.split_first() {
            None => Ok(()),
            Some((b'#', _)) => Ok(()),
            Some((b'|', rest)) => {
                self.text.extend_from_slice(rest)?;
                self.text.push(b'\n')?;
                Ok(())
            }
            Some((b'\\', rest)) => {
                self.text.extend_from_slice(rest)?;
                Ok(())
            }
            Some(_) => self.take_command(rt, str::from_utf8(line)?, out),
        }
    }

    /// Takes a line that isn't of a text.
    fn take_command<R: Threads + Wait + Sync>(
        &mut self,
        rt: &R,
        line: &str,
        out: &mut Vec<u8>,
    ) -> Result<(), Stopped> {
        let (kind, rest) = line.split_once(' ').unwrap_or((line, ""));
        match kind {
            "text" => self.begin_text(rest),
            "status" | "out" | "err" | "asks" | "takes" | "accepted" => self.begin_text(""),
            "spaces" => self.add_spaces(rest),
            "case" => self.begin_case(rest),
            "run" => self.case.run(rt, &self.texts, out),
            "twice" => self.case.run_twice(rt, &self.texts, out),
            "audited" => self.case.run_audited(rt, &self.texts, out),
            "held" => self.case.run_held(rt, rest, &self.texts, out),
            "beginnings" => self.case.run_beginnings(rt, &self.texts, out),
            "job" => self.case.read_job(out),
            _ => self.case.take(kind, rest),
        }
    }

    /// Keeps the text that was read, and begins one of this name.
    fn begin_text(&mut self, name: &str) -> Result<(), Stopped> {
        if !self.name.is_empty() {
            self.texts.add(self.name.as_str(), self.text.as_slice())?;
        }
        self.name = String::from_str(self.alloc, name)?;
        self.text.clear();
        Ok(())
    }

    /// Adds so many spaces to the text that is being read.
    fn add_spaces(&mut self, count: &str) -> Result<(), Stopped> {
        for _ in 0..count.parse::<u64>()? {
            self.text.push(b' ')?;
        }
        Ok(())
    }

    /// Keeps the text that was read, and begins a case of this name.
    fn begin_case(&mut self, name: &str) -> Result<(), Stopped> {
        self.begin_text("")?;
        self.case = Case::new(self.alloc);
        self.case.name(name)
    }
}
