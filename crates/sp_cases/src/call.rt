//! One call of the top call.

use crate::choosers::Counted;
use crate::hold::Hold;
use crate::stopped::Stopped;
use sp_choose::{Chooser, Sweep, Uniform};
use sp_dd::{Ids, NoMemory};
use sp_outside::{Files, MemSink, MemStore};
use sp_tool::{Status, run_gated, run_tool};
use std::alloc::{AllocError, Global};
use std::sync::atomic::{AtomicU64, Ordering};
use std::sync::{Arc, Wait};
use std::thread::Threads;

/// Which reads and writes of a call fail, counted from 1, and how many bytes out takes at once.
#[derive(Drop)]
pub struct Faults {
    reads: Vec<u64>,
    writes: Vec<u64>,
    tells: Vec<u64>,
    most: u64,
}

impl Faults {
    /// Nothing fails.
    pub fn new(alloc: Global) -> Faults {
        Faults {
            reads: Vec::new(alloc),
            writes: Vec::new(alloc),
            tells: Vec::new(alloc),
            most: 65536,
        }
    }

    /// Takes the number of a line of this kind.
    pub fn take(&mut self, kind: &str, number: u64) -> Result<(), Stopped> {
        match kind {
            "read" => Ok(self.reads.push(number)?),
            "write" => Ok(self.writes.push(number)?),
            "tell" => Ok(self.tells.push(number)?),
            "most" => {
                self.most = number;
                Ok(())
            }
            _ => Err(Stopped),
        }
    }
}

/// What a call gave.
#[derive(Drop)]
pub struct Given {
    pub status: Status,
    /// How many of its choosers were dropped.
    pub drops: u64,
    pub out: MemSink,
    pub err: MemSink,
}

impl Given {
    /// Nothing was written yet.
    fn silent(alloc: Global, faults: &Faults) -> Result<Given, Stopped> {
        let out = sink_of(alloc, faults.most, faults.writes.as_slice())?;
        let err = sink_of(alloc, 65536, faults.tells.as_slice())?;
        Ok(Given {
            status: Status::Done,
            drops: 0,
            out,
            err,
        })
    }

    /// Whether another call gave the same.
    pub fn same(&self, other: &Given) -> bool {
        self.status == other.status
            && self.out.text() == other.out.text()
            && self.err.text() == other.err.text()
    }
}

/// Makes a call on these files, with a gate that may hold back a planner.
pub fn give<R: Threads + Wait + Sync>(
    rt: &R,
    alloc: Global,
    words: &[String],
    files: Files,
    faults: &Faults,
    hold: Option<&Hold>,
) -> Result<Given, Stopped> {
    let mut store = MemStore::new(files, list_of(alloc, faults.reads.as_slice())?);
    give_from(rt, alloc, words, &mut store, faults, hold)
}

/// Makes a call on the files of a store.
fn give_from<R: Threads + Wait + Sync>(
    rt: &R,
    alloc: Global,
    words: &[String],
    store: &mut MemStore,
    faults: &Faults,
    hold: Option<&Hold>,
) -> Result<Given, Stopped> {
    let mut given = Given::silent(alloc, faults)?;
    let drops = Arc::new(alloc, AtomicU64::new(0))?;
    let counted = [Arc::try_clone(&drops)?, Arc::try_clone(&drops)?];
    given.status = call(
        rt,
        alloc,
        words,
        counted,
        store,
        &mut given.out,
        &mut given.err,
        hold,
    )?;
    given.drops = drops.load(Ordering::SeqCst);
    Ok(given)
}

/// A sink that takes at most so many bytes at once, at least one, and whose writes of these numbers fail.
fn sink_of(alloc: Global, most: u64, failing: &[u64]) -> Result<MemSink, NoMemory> {
    Ok(MemSink::new(alloc, most.max(1), list_of(alloc, failing)?))
}

/// The list of these numbers.
fn list_of(alloc: Global, numbers: &[u64]) -> Result<Ids, NoMemory> {
    let mut list = Ids::new(alloc);
    for number in numbers {
        list.push(*number)?;
    }
    Ok(list)
}

/// Calls the tool with the two ways to choose actions, at random and in turn, whose drops are counted.
fn call<R: Threads + Wait + Sync>(
    rt: &R,
    alloc: Global,
    words: &[String],
    drops: [Arc<AtomicU64>; 2],
    store: &mut MemStore,
    out: &mut MemSink,
    err: &mut MemSink,
    hold: Option<&Hold>,
) -> Result<Status, AllocError> {
    let [uniform, sweep] = drops;
    let mut choosers: Vec<Box<dyn Chooser + Send>> = Vec::new(alloc);
    choosers.push(Box::new(alloc, Counted::new(Uniform, uniform))?)?;
    choosers.push(Box::new(alloc, Counted::new(Sweep::new(), sweep))?)?;
    Ok(match hold {
        None => run_tool(rt, alloc, words, choosers, store, out, err),
        Some(gate) => run_gated(rt, alloc, gate, words, choosers, store, out, err),
    })
}
