//! Prints beliefs, backups, books and plans of models, as the lines of `examples.txt` and `drawn.txt` ask for them.
#![tactic(auto)]

mod backups;
mod beliefs;
mod books;
mod desk;
mod models;
mod numbers;
mod plans;
mod pruning;
mod stopped;
mod twins;

use desk::Desk;
use sp_outside::{DirStore, StdSink, Store, read_whole, write_whole};
use std::alloc::Global;
use std::process::ExitCode;
use stopped::Stopped;

/// How many bytes a file may have.
const LIMIT: u64 = 1 << 24;

/// What the lines of a file ask for.
fn told_by<S: Store>(alloc: Global, store: &mut S, name: &str) -> Result<String, Stopped> {
    let source = read_whole(alloc, store, name, LIMIT)?;
    let mut desk = Desk::new(alloc)?;
    for line in str::from_utf8(source.as_slice())?.lines() {
        desk.take_line(line)?;
    }
    Ok(desk.into_told())
}

/// Prints what the lines of both files ask for.
fn run(rt: &HostRuntime) -> Result<(), Stopped> {
    let mut store = DirStore::new(rt);
    let mut out = StdSink::new(rt.stdout());
    let told = told_by(rt.alloc(), &mut store, "examples.txt")?;
    write_whole(&mut out, told.as_bytes())?;
    let told = told_by(rt.alloc(), &mut store, "drawn.txt")?;
    Ok(write_whole(&mut out, told.as_bytes())?)
}

fn main(rt: HostRuntime) -> ExitCode {
    match run(&rt) {
        Ok(()) => ExitCode::SUCCESS,
        Err(_) => ExitCode::FAILURE,
    }
}
