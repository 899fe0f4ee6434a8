//! Runs bundles of cases on the top call, over files in memory, and prints what each gives. The gate compares that with what the
//! bundles say is wanted, as `tools/make-cases` writes it into `stdout`.
#![tactic(auto)]

mod audits;
mod bundle;
mod call;
mod case;
mod choosers;
mod counts;
mod hold;
mod jobs;
mod lines;
mod stopped;

use bundle::Bundle;
use sp_outside::{DirStore, StdSink, read_whole, write_whole};
use std::alloc::Global;
use std::env;
use std::process::ExitCode;
use std::sync::Wait;
use std::thread::Threads;
use stopped::Stopped;

/// How many bytes a bundle may have.
const LIMIT: u64 = 1 << 30;

/// The names of the bundles: the words behind the program's name.
fn names(rt: &HostRuntime) -> Result<Vec<String>, Stopped> {
    Ok(env::args(rt)?.skip(1).collect(rt.alloc())?)
}

/// Adds the bytes of one bundle.
fn read_bundle(rt: &HostRuntime, name: &str, source: &mut Vec<u8>) -> Result<(), Stopped> {
    let bytes = read_whole(rt.alloc(), &mut DirStore::new(rt), name, LIMIT)?;
    source.extend_from_slice(bytes.as_slice())?;
    Ok(())
}

/// The bytes of these bundles, one behind another. A later one may use the texts of an earlier one.
fn read_bundles(rt: &HostRuntime, names: &[String]) -> Result<Vec<u8>, Stopped> {
    let mut source = Vec::new(rt.alloc());
    for name in names {
        read_bundle(rt, name.as_str(), &mut source)?;
    }
    Ok(source)
}

/// The bytes of the bundles that the words name.
fn source(rt: &HostRuntime) -> Result<Vec<u8>, Stopped> {
    read_bundles(rt, names(rt)?.as_slice())
}

/// Runs the cases of the bundles, and adds what they give, up to a line that has no meaning.
fn run<R: Threads + Wait + Sync>(
    rt: &R,
    alloc: Global,
    source: &[u8],
    out: &mut Vec<u8>,
) -> Result<(), Stopped> {
    Bundle::new(alloc).take_lines(rt, source, out)
}

fn main(rt: HostRuntime) -> ExitCode {
    let mut out = Vec::new(rt.alloc());
    let ended = match source(&rt) {
        Ok(source) => run(&rt, rt.alloc(), source.as_slice(), &mut out),
        Err(stopped) => Err(stopped),
    };
    let written = write_whole(&mut StdSink::new(rt.stdout()), out.as_slice());
    if ended.is_ok() && written.is_ok() {
        ExitCode::SUCCESS
    } else {
        ExitCode::FAILURE
    }
}
