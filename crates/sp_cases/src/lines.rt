//! The lines that tell what a case gave.

use crate::call::Given;
use crate::stopped::Stopped;
use std::alloc::Global;

/// Adds a word and a number.
pub fn push_number(
    alloc: Global,
    out: &mut Vec<u8>,
    word: &str,
    number: u64,
) -> Result<(), Stopped> {
    let line = format!(in alloc; "{word} {number}\n")?;
    out.extend_from_slice(line.as_bytes())?;
    Ok(())
}

/// Adds a word and a text.
pub fn push_text(alloc: Global, out: &mut Vec<u8>, word: &str, text: &str) -> Result<(), Stopped> {
    let line = format!(in alloc; "{word} {text}\n")?;
    out.extend_from_slice(line.as_bytes())?;
    Ok(())
}

/// Adds how many bytes these are, and the bytes.
fn push_bytes(alloc: Global, out: &mut Vec<u8>, word: &str, bytes: &[u8]) -> Result<(), Stopped> {
    push_number(alloc, out, word, bytes.len() as u64)?;
    out.extend_from_slice(bytes)?;
    Ok(())
}

/// Adds the name of a case.
pub fn push_head(alloc: Global, out: &mut Vec<u8>, name: &str) -> Result<(), Stopped> {
    push_text(alloc, out, "case", name)
}

/// The first lines of these bytes.
fn first_lines(bytes: &[u8], lines: u64) -> &[u8] {
    let mut left = lines;
    for place in 0..bytes.len() {
        if left == 0 {
            return &bytes[..place];
        }
        if bytes[place] == b'\n' {
            left -= 1;
        }
    }
    bytes
}

/// Adds what a call gave: its status, how many choosers it dropped, so many lines of out, and err.
pub fn push_given(
    alloc: Global,
    out: &mut Vec<u8>,
    given: &Given,
    lines: u64,
) -> Result<(), Stopped> {
    push_number(alloc, out, "status", given.status.number() as u64)?;
    push_number(alloc, out, "drops", given.drops)?;
    push_bytes(alloc, out, "out", first_lines(given.out.text(), lines))?;
    push_bytes(alloc, out, "err", given.err.text())
}

/// Adds whether a second call gave the same, and what the first gave.
pub fn push_twice(
    alloc: Global,
    out: &mut Vec<u8>,
    given: &Given,
    same: bool,
    lines: u64,
) -> Result<(), Stopped> {
    let line = if same { "same\n" } else { "other\n" };
    out.extend_from_slice(line.as_bytes())?;
    push_given(alloc, out, given, lines)
}

/// Adds what a call on a beginning of its files gave: how many bytes that has, the status, and what was written.
pub fn push_beginning(
    alloc: Global,
    out: &mut Vec<u8>,
    length: u64,
    given: &Given,
) -> Result<(), Stopped> {
    let status = given.status.number();
    let line = format!(in alloc; "{length} {status} ")?;
    out.extend_from_slice(line.as_bytes())?;
    out.extend_from_slice(given.out.text())?;
    out.extend_from_slice(given.err.text())?;
    Ok(())
}
