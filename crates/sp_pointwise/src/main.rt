//! Makes the calls on functions of points that the lines of its files ask for, on tables and on diagrams, and prints their answers.
//!
//! `worked.txt` and `drawn.txt` are taken twice, once by each form. Where both answer the same, it is printed once. `large.txt` has a
//! function of 2^20 states and counts nodes: diagrams alone take it.
#![tactic(auto)]

mod desk;
mod function;
mod making;
mod numbers;
mod on_diagrams;
mod on_tables;
mod points;
mod stopped;
mod telling;

use desk::Desk;
use function::Function;
use sp_dd::Diagram;
use sp_outside::{DirStore, StdSink, Store, read_whole, write_whole};
use sp_table::Table;
use std::alloc::Global;
use std::process::ExitCode;
use stopped::Stopped;

/// How many bytes a file may have.
const LIMIT: u64 = 1 << 20;

/// What the lines of a text ask of one form.
fn told_by<F: Function>(alloc: Global, text: &str) -> Result<String, Stopped> {
    let mut desk: Desk<F> = Desk::new(alloc)?;
    for line in text.lines() {
        desk.take_line(line)?;
    }
    Ok(desk.into_told())
}

/// What the lines of a text ask of both forms.
fn told_by_both(alloc: Global, text: &str) -> Result<String, Stopped> {
    let mut told = told_by::<Table>(alloc, text)?;
    let by_diagrams = told_by::<Diagram>(alloc, text)?;
    if told.as_str() == by_diagrams.as_str() {
        told.push_str("tables and diagrams answer the same\n")?;
    } else {
        told.push_str("diagrams answer otherwise:\n")?;
        told.push_str(by_diagrams.as_str())?;
    }
    Ok(told)
}

/// What the lines of a file ask for.
fn told_of<S: Store>(alloc: Global, store: &mut S, name: &str) -> Result<String, Stopped> {
    let source = read_whole(alloc, store, name, LIMIT)?;
    let text = str::from_utf8(source.as_slice())?;
    match name {
        "large.txt" => told_by::<Diagram>(alloc, text),
        _ => told_by_both(alloc, text),
    }
}

/// Prints what the lines of each file ask for.
fn run(rt: &HostRuntime) -> Result<(), Stopped> {
    let mut store = DirStore::new(rt);
    let mut out = StdSink::new(rt.stdout());
    for name in ["worked.txt", "drawn.txt", "large.txt"] {
        let told = told_of(rt.alloc(), &mut store, name)?;
        write_whole(&mut out, told.as_bytes())?;
    }
    Ok(())
}

fn main(rt: HostRuntime) -> ExitCode {
    match run(&rt) {
        Ok(()) => ExitCode::SUCCESS,
        Err(_) => ExitCode::FAILURE,
    }
}
