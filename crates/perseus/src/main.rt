//! The program: plans for the words of its command line, on the files of the current folder.
#![tactic(auto)]

use sp_choose::{Chooser, Sweep, Uniform};
use sp_outside::{DirStore, Sink, StdSink, Store, write_whole};
use sp_tool::{Status, run_tool};
use std::alloc::{AllocError, Global};
use std::io::ErrorKind;
use std::process::ExitCode;
use std::sync::Wait;
use std::thread::Threads;
use std::{env, io};

/// The words behind the program's name.
fn words(rt: &HostRuntime) -> io::Result<Vec<String>> {
    Ok(env::args(rt)?.skip(1).collect(rt.alloc())?)
}

/// Runs the command of these words.
fn run<R: Threads + Wait + Sync, S: Store, K: Sink, E: Sink>(
    rt: &R,
    alloc: Global,
    words: &[String],
    store: &mut S,
    out: &mut K,
    err: &mut E,
) -> Result<Status, AllocError> {
    let mut choosers: Vec<Box<dyn Chooser + Send>> = Vec::new(alloc);
    choosers.push(Box::new(alloc, Uniform)?)?;
    choosers.push(Box::new(alloc, Sweep::new())?)?;
    Ok(run_tool(rt, alloc, words, choosers, store, out, err))
}

fn main(rt: HostRuntime) -> ExitCode {
    let mut err = StdSink::new(rt.stderr());
    let words = match words(&rt) {
        Ok(words) => words,
        // A word that isn't UTF-8 is a word of no command. Neither is the empty list of words, which is judged in its place.
        Err(error) if error.kind() == ErrorKind::InvalidData => Vec::new(rt.alloc()),
        Err(_) => return out_of_memory(&mut err),
    };
    let mut store = DirStore::new(&rt);
    let mut out = StdSink::new(rt.stdout());
    match run(
        &rt,
        rt.alloc(),
        words.as_slice(),
        &mut store,
        &mut out,
        &mut err,
    ) {
        Ok(status) => ExitCode::from(status.number()),
        Err(_) => out_of_memory(&mut err),
    }
}

/// Tells of want of memory. A fault of standard error changes no status.
fn out_of_memory<E: Sink>(err: &mut E) -> ExitCode {
    let _ = write_whole(err, b"perseus: out of memory\n");
    ExitCode::from(Status::NoMemory.number())
}
