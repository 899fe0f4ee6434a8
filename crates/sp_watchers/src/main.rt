//! Editions are published and looked at: on one thread, where each answer is known beforehand, and then by several threads, of which
//! only what holds in every order of their steps is printed.
#![tactic(auto)]

mod askers;
mod begun;
mod calls;
mod desks;
mod ended;
mod lookers;
mod pace;
mod rows;
mod seen;
mod stopped;
mod tally;

use askers::watch_askers;
use begun::opened;
use calls::push_calls;
use lookers::watch_lookers;
use rows::push_rows;
use sp_outside::{DirStore, StdSink, read_whole, write_whole};
use std::alloc::Global;
use std::process::ExitCode;
use std::sync::Wait;
use std::thread::Threads;
use stopped::Stopped;

/// How many bytes the model may have.
const LIMIT: u64 = 1 << 16;

/// The text of the model.
fn model_text(rt: &HostRuntime) -> Result<Vec<u8>, Stopped> {
    Ok(read_whole(rt.alloc(), &mut DirStore::new(rt), "tiger.txt", LIMIT)?)
}

/// Adds all that is printed.
fn push_all<R: Threads + Wait + Sync>(
    rt: &R,
    alloc: Global,
    source: &[u8],
    text: &mut String,
) -> Result<(), Stopped> {
    push_calls(rt, alloc, opened(alloc, source, 2)?, text)?;
    push_rows(rt, alloc, opened(alloc, source, 1)?, text)?;
    watch_lookers(rt, alloc, opened(alloc, source, 1000)?, text)?;
    watch_askers(rt, alloc, opened(alloc, source, 200)?, text)
}

fn main(rt: HostRuntime) -> ExitCode {
    let mut text = String::new(rt.alloc());
    let ended = match model_text(&rt) {
        Ok(source) => push_all(&rt, rt.alloc(), source.as_slice(), &mut text),
        Err(stopped) => Err(stopped),
    };
    let written = write_whole(&mut StdSink::new(rt.stdout()), text.as_bytes());
    if ended.is_ok() && written.is_ok() {
        ExitCode::SUCCESS
    } else {
        ExitCode::FAILURE
    }
}
