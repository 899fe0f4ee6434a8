//! Files and writes in memory.

use crate::choices::ids_of;
use crate::stopped::Stopped;
use crate::words::numbers_of;
use sp_outside::{Files, MemSink, MemStore, ReadError, read_whole, write_whole};
use std::alloc::Global;

/// Adds so many bytes to a text: 0 to 250, again and again.
pub fn add_counted(text: &mut Vec<u8>, count: u64) -> Result<(), Stopped> {
    for place in 0..count {
        text.push((place % 251) as u8)?;
    }
    Ok(())
}

/// Three files: `empty`, `text` with these bytes, and again `text` with others, which no read gives.
fn files_with(alloc: Global, text: &[u8]) -> Result<Files, Stopped> {
    let mut files = Files::new(alloc);
    files.add("empty", b"")?;
    files.add("text", text)?;
    files.add("text", b"not read")?;
    Ok(files)
}

/// Adds what is read of a file in memory: its name, how many bytes it may have, and the numbers of the reads that fail.
pub fn push_read(told: &mut String, alloc: Global, text: &[u8], rest: &str) -> Result<(), Stopped> {
    let (name, rest) = rest.split_once(' ').ok_or(Stopped)?;
    let numbers = numbers_of(alloc, rest)?;
    let (limit, failing) = numbers.as_slice().split_first().ok_or(Stopped)?;
    let mut store = MemStore::new(files_with(alloc, text)?, ids_of(alloc, failing)?);
    push_content(told, read_whole(alloc, &mut store, name, *limit))
}

/// Adds how many bytes were read, and their digest, or why none were.
pub fn push_content(told: &mut String, content: Result<Vec<u8>, ReadError>) -> Result<(), Stopped> {
    match content {
        Ok(bytes) => push_digest(told, bytes.as_slice()),
        Err(ReadError::Failed) => Ok(told.push_str("failed\n")?),
        Err(ReadError::TooLong { limit }) => Ok(writeln!(told, "longer than {limit}")?),
        Err(ReadError::NoMemory) => Err(Stopped),
    }
}

/// Adds how many bytes these are, and their digest: from 0 on, 31 times what it was and the next byte, modulo 2^64.
fn push_digest(told: &mut String, bytes: &[u8]) -> Result<(), Stopped> {
    let mut digest = 0u64;
    for byte in bytes {
        digest = digest.wrapping_mul(31).wrapping_add(u64::from(*byte));
    }
    let count = bytes.len();
    Ok(writeln!(told, "{count} bytes {digest}")?)
}

/// Adds what a sink in memory has of a text, which takes so many bytes at once, and whose writes of these numbers fail.
pub fn push_written(
    told: &mut String,
    alloc: Global,
    text: &[u8],
    most: u64,
    failing: &[u64],
) -> Result<(), Stopped> {
    if most == 0 {
        return Err(Stopped);
    }
    let mut sink = MemSink::new(alloc, most, ids_of(alloc, failing)?);
    let how = match write_whole(&mut sink, text) {
        Ok(()) => "whole",
        Err(_) => "failed",
    };
    let written = str::from_utf8(sink.text())?;
    Ok(writeln!(told, "{how}: {written}")?)
}
