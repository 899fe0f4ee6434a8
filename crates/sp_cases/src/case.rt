//! A case: a call, and how it is made.

use crate::audits::{audit_of, push_audit, push_hold};
use crate::call::{Faults, Given, give};
use crate::counts::Counts;
use crate::hold::{Hold, Until};
use crate::jobs::push_jobs;
use crate::lines::{push_beginning, push_given, push_head, push_twice};
use crate::stopped::Stopped;
use sp_outside::Files;
use std::alloc::Global;
use std::sync::Wait;
use std::thread::Threads;

/// A file of a case, and the name of the text that has its bytes.
#[derive(Drop)]
struct CaseFile {
    name: String,
    text: String,
}

/// The words of a call, its files, and which of its reads and writes fail.
#[derive(Drop)]
pub struct Case {
    alloc: Global,
    name: String,
    words: Vec<String>,
    files: Vec<CaseFile>,
    faults: Faults,
    /// How many lines of out are printed.
    lines: u64,
    /// What an audit of its text may count.
    counts: Counts,
}

impl Case {
    /// A case without words and files, in which nothing fails.
    pub fn new(alloc: Global) -> Case {
        Case {
            alloc,
            name: String::new(alloc),
            words: Vec::new(alloc),
            files: Vec::new(alloc),
            faults: Faults::new(alloc),
            lines: u64::MAX,
            counts: Counts::new(),
        }
    }

    /// Gives it a name.
    pub fn name(&mut self, name: &str) -> Result<(), Stopped> {
        self.name = String::from_str(self.alloc, name)?;
        Ok(())
    }

    /// Takes what a line of this kind says.
    pub fn take(&mut self, kind: &str, rest: &str) -> Result<(), Stopped> {
        match kind {
            "words" => self.add_words(rest),
            "word" => self.add_word(rest),
            "file" => self.add_file(rest),
            "first" => {
                self.lines = rest.parse::<u64>()?;
                Ok(())
            }
            "events" | "editions" | "sessions" => self.counts.take(kind, rest),
            _ => self.faults.take(kind, rest.parse::<u64>()?),
        }
    }

    /// Adds a word.
    fn add_word(&mut self, word: &str) -> Result<(), Stopped> {
        self.words.push(String::from_str(self.alloc, word)?)?;
        Ok(())
    }

    /// Adds the words of a line.
    fn add_words(&mut self, line: &str) -> Result<(), Stopped> {
        for word in line.split(' ') {
            self.add_word(word)?;
        }
        Ok(())
    }

    /// Adds a file by its name and that of its text.
    fn add_file(&mut self, names: &str) -> Result<(), Stopped> {
        let (name, text) = names.split_once(' ').ok_or(Stopped)?;
        let name = String::from_str(self.alloc, name)?;
        let text = String::from_str(self.alloc, text)?;
        self.files.push(CaseFile { name, text })?;
        Ok(())
    }

    /// The files, each of at most so many bytes.
    fn files_to(&self, texts: &Files, most: usize) -> Result<Files, Stopped> {
        let mut files = Files::new(self.alloc);
        for file in &self.files {
            let bytes = texts.content(file.text.as_str()).ok_or(Stopped)?;
            files.add(file.name.as_str(), &bytes[..bytes.len().min(most)])?;
        }
        Ok(files)
    }

    /// Makes the call on files of at most so many bytes.
    fn give<R: Threads + Wait + Sync>(
        &self,
        rt: &R,
        texts: &Files,
        most: usize,
    ) -> Result<Given, Stopped> {
        let files = self.files_to(texts, most)?;
        give(
            rt,
            self.alloc,
            self.words.as_slice(),
            files,
            &self.faults,
            None,
        )
    }

    /// Makes the call, and adds what it gives.
    pub fn run<R: Threads + Wait + Sync>(
        &self,
        rt: &R,
        texts: &Files,
        out: &mut Vec<u8>,
    ) -> Result<(), Stopped> {
        push_head(self.alloc, out, self.name.as_str())?;
        let given = self.give(rt, texts, usize::MAX)?;
        push_given(self.alloc, out, &given, self.lines)
    }

    /// Makes the call twice, and adds whether it gives the same again, and what it gives.
    pub fn run_twice<R: Threads + Wait + Sync>(
        &self,
        rt: &R,
        texts: &Files,
        out: &mut Vec<u8>,
    ) -> Result<(), Stopped> {
        push_head(self.alloc, out, self.name.as_str())?;
        let given = self.give(rt, texts, usize::MAX)?;
        let same = self.gives_same(rt, texts, &given)?;
        push_twice(self.alloc, out, &given, same, self.lines)
    }

    /// Whether the call gives the same as it gave.
    fn gives_same<R: Threads + Wait + Sync>(
        &self,
        rt: &R,
        texts: &Files,
        given: &Given,
    ) -> Result<bool, Stopped> {
        let again = self.give(rt, texts, usize::MAX)?;
        Ok(given.same(&again))
    }

    /// Makes the call, and adds what it gives, and what an audit of its text gives.
    pub fn run_audited<R: Threads + Wait + Sync>(
        &self,
        rt: &R,
        texts: &Files,
        out: &mut Vec<u8>,
    ) -> Result<(), Stopped> {
        push_head(self.alloc, out, self.name.as_str())?;
        let given = self.give(rt, texts, usize::MAX)?;
        push_given(self.alloc, out, &given, self.lines)?;
        let audit = audit_of(rt, self.alloc, given.out.text())?;
        push_audit(self.alloc, out, &audit, self.counts)
    }

    /// The same with a gate, of which it is added whether it let the first backup go on, and whether all backups passed it.
    pub fn run_held<R: Threads + Wait + Sync>(
        &self,
        rt: &R,
        until: &str,
        texts: &Files,
        out: &mut Vec<u8>,
    ) -> Result<(), Stopped> {
        push_head(self.alloc, out, self.name.as_str())?;
        let files = self.files_to(texts, usize::MAX)?;
        let hold = Hold::new(Until::of(until)?);
        let given = give(
            rt,
            self.alloc,
            self.words.as_slice(),
            files,
            &self.faults,
            Some(&hold),
        )?;
        push_given(self.alloc, out, &given, self.lines)?;
        let audit = audit_of(rt, self.alloc, given.out.text())?;
        push_audit(self.alloc, out, &audit, self.counts)?;
        push_hold(self.alloc, out, &hold, given.out.text())
    }

    /// How many bytes the longest file has.
    fn longest(&self, texts: &Files) -> Result<usize, Stopped> {
        let mut longest = 0;
        for file in &self.files {
            let bytes = texts.content(file.text.as_str()).ok_or(Stopped)?;
            longest = bytes.len().max(longest);
        }
        Ok(longest)
    }

    /// Makes the call on each beginning of its files, and adds what each gives.
    pub fn run_beginnings<R: Threads + Wait + Sync>(
        &self,
        rt: &R,
        texts: &Files,
        out: &mut Vec<u8>,
    ) -> Result<(), Stopped> {
        push_head(self.alloc, out, self.name.as_str())?;
        for length in 0..=self.longest(texts)? {
            self.run_beginning(rt, texts, length, out)?;
        }
        Ok(())
    }

    /// Makes the call on the first bytes of its files, and adds what it gives.
    fn run_beginning<R: Threads + Wait + Sync>(
        &self,
        rt: &R,
        texts: &Files,
        length: usize,
        out: &mut Vec<u8>,
    ) -> Result<(), Stopped> {
        let given = self.give(rt, texts, length)?;
        push_beginning(self.alloc, out, length as u64, &given)
    }

    /// Adds what the words ask for, and what the parser alone takes them for.
    pub fn read_job(&self, out: &mut Vec<u8>) -> Result<(), Stopped> {
        push_head(self.alloc, out, self.name.as_str())?;
        push_jobs(self.alloc, out, self.words.as_slice())
    }
}
