//! Writers and files of the system.

use crate::files::push_content;
use crate::stopped::Stopped;
use crate::words::numbers_of;
use sp_outside::{Sink, StdSink, Store, read_whole};
use std::alloc::Global;
use std::io::{self, Write};

/// A writer whose calls take so many bytes in turn, and which fails behind them.
#[derive(Drop)]
struct Grudging<'a> {
    takes: &'a [u64],
}

impl Write for Grudging<'_> {
    fn write(&mut self, buf: &[u8]) -> io::Result<usize> {
        match self.takes.split_first() {
            Some((count, others)) => {
                self.takes = others;
                Ok(buf.len().min(*count as usize))
            }
            None => Err(io::Error::from(io::ErrorKind::BrokenPipe)),
        }
    }

    fn flush(&mut self) -> io::Result<()> {
        Ok(())
    }
}

/// Adds what is answered to the writes of beginnings of a text: how many numbers the writer has, the bytes that its calls take, and
/// the lengths of the beginnings.
pub fn push_adapted(told: &mut String, text: &[u8], numbers: &[u64]) -> Result<(), Stopped> {
    let (count, rest) = numbers.split_first().ok_or(Stopped)?;
    let (takes, lengths) = rest.split_at_checked(*count as usize).ok_or(Stopped)?;
    let mut sink = StdSink::new(Grudging { takes });
    for length in lengths {
        let piece = text.get(..*length as usize).ok_or(Stopped)?;
        match sink.write(piece) {
            Ok(written) => write!(told, " {written}")?,
            Err(_) => told.push_str(" failed")?,
        }
    }
    Ok(told.push_str("\n")?)
}

/// Adds what is read of a file: its name, and how many bytes it may have.
pub fn push_file<S: Store>(
    told: &mut String,
    alloc: Global,
    store: &mut S,
    rest: &str,
) -> Result<(), Stopped> {
    let (name, limit) = rest.split_once(' ').ok_or(Stopped)?;
    let limit = limit.parse::<u64>()?;
    push_content(told, read_whole(alloc, store, name, limit))
}

/// Adds what one read gives: the name, the place, and how many bytes are asked for.
pub fn push_part<S: Store>(
    told: &mut String,
    alloc: Global,
    store: &mut S,
    rest: &str,
) -> Result<(), Stopped> {
    let (name, rest) = rest.split_once(' ').ok_or(Stopped)?;
    let numbers = numbers_of(alloc, rest)?;
    let [at, count] = numbers.as_slice() else {
        return Err(Stopped);
    };
    let mut buf = [0u8; 16];
    let buf = buf.get_mut(..*count as usize).ok_or(Stopped)?;
    match store.read_at(name, *at, buf) {
        Ok(found) => {
            let bytes = buf.get(..found).ok_or(Stopped)?;
            let text = str::from_utf8(bytes)?;
            writeln!(told, "{found} bytes: {text}")?;
        }
        Err(_) => told.push_str("failed\n")?,
    }
    Ok(())
}
