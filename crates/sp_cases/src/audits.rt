//! What audits say of plan files.

use crate::call::{Faults, Given, give};
use crate::counts::Counts;
use crate::hold::Hold;
use crate::lines::{push_given, push_number, push_text};
use crate::stopped::Stopped;
use sp_outside::Files;
use sp_tool::Status;
use std::alloc::{AllocError, Global};
use std::str;
use std::sync::Wait;
use std::thread::Threads;

/// The words of an audit.
fn audit_words(alloc: Global) -> Result<Vec<String>, AllocError> {
    Ok(vec![in alloc;
        String::from_str(alloc, "audit")?,
        String::from_str(alloc, "p.txt")?,
    ]?)
}

/// What an audit of a plan file gives.
pub fn audit_of<R: Threads + Wait + Sync>(
    rt: &R,
    alloc: Global,
    text: &[u8],
) -> Result<Given, Stopped> {
    let words = audit_words(alloc)?;
    let mut files = Files::new(alloc);
    files.add("p.txt", text)?;
    give(
        rt,
        alloc,
        words.as_slice(),
        files,
        &Faults::new(alloc),
        None,
    )
}

/// Adds that an audit found a file legal, and whether its counts are these; or else what the audit gave.
pub fn push_audit(
    alloc: Global,
    out: &mut Vec<u8>,
    audit: &Given,
    counts: Counts,
) -> Result<(), Stopped> {
    let line = str::from_utf8(audit.out.text())?;
    if audit.status == Status::Done && line.starts_with("legal ") {
        push_text(alloc, out, "audit", "legal")?;
        counts.push(alloc, out, line.trim_end())
    } else {
        push_given(alloc, out, audit, u64::MAX)
    }
}

/// Adds whether a gate let the held backups go on, and whether it saw a backup for each one that the file has; where another planner made
/// editions meanwhile, also whether the file has a backup on an edition that wasn't the newest any more.
pub fn push_hold(
    alloc: Global,
    out: &mut Vec<u8>,
    hold: &Hold,
    text: &[u8],
) -> Result<(), Stopped> {
    let backups = hold.backups();
    push_text(alloc, out, "released", yes_or_no(hold.was_released()))?;
    let settled = settles(str::from_utf8(text)?);
    if backups >= settled {
        push_text(alloc, out, "settles", "within")?;
    } else {
        push_number(alloc, out, "settles", settled)?;
    }
    if hold.is_for_editions() {
        push_text(
            alloc,
            out,
            "older",
            yes_or_no(has_older(str::from_utf8(text)?)?),
        )?;
    }
    Ok(())
}

fn yes_or_no(holds: bool) -> &'static str {
    if holds { "yes" } else { "no" }
}

/// Whether a plan file has a backup on an edition that wasn't the newest any more.
fn has_older(text: &str) -> Result<bool, Stopped> {
    let mut newest: u64 = 0;
    let mut found = false;
    for line in text.split('\n') {
        if line.starts_with("settle ") {
            found = found || edition_of(line)? < newest;
        }
        if line == "publish" || line.starts_with("prune ") {
            newest = newest.saturating_add(1);
        }
    }
    Ok(found)
}

/// The number of the edition of a backup: the second one of its line.
fn edition_of(line: &str) -> Result<u64, Stopped> {
    let (_, behind) = line.split_once(' ').ok_or(Stopped)?;
    let (_, behind) = behind.split_once(' ').ok_or(Stopped)?;
    let (edition, _) = behind.split_once(' ').ok_or(Stopped)?;
    Ok(edition.parse::<u64>()?)
}

/// How many lines of a plan file tell of a backup.
fn settles(text: &str) -> u64 {
    let mut count: u64 = 0;
    for line in text.split('\n') {
        if line.starts_with("settle ") {
            count = count.saturating_add(1);
        }
    }
    count
}
