//! Prints what the crates at the bottom answer, as the lines of `basics.txt` ask for it: tokens, numbers, generated texts, choices
//! of actions, and what is read and written.
#![tactic(auto)]

mod adapters;
mod choices;
mod desk;
mod files;
mod stopped;
mod words;

use desk::Desk;
use sp_outside::{DirStore, StdSink, read_whole, write_whole};
use std::process::ExitCode;
use stopped::Stopped;

/// How many bytes the lines may have.
const LIMIT: u64 = 1 << 20;

/// Takes each line, and prints what it asks for.
fn run(rt: &HostRuntime) -> Result<(), Stopped> {
    let mut store = DirStore::new(rt);
    let source = read_whole(rt.alloc(), &mut store, "basics.txt", LIMIT)?;
    let mut desk = Desk::new(rt.alloc());
    for line in str::from_utf8(source.as_slice())?.lines() {
        desk.take_line(&mut store, line)?;
    }
    Ok(write_whole(&mut StdSink::new(rt.stdout()), desk.told().as_bytes())?)
}

fn main(rt: HostRuntime) -> ExitCode {
    match run(&rt) {
        Ok(()) => ExitCode::SUCCESS,
        Err(_) => ExitCode::FAILURE,
    }
}
