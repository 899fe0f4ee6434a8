//! The files and the writers of the system. What they read and write isn't told to contracts.

ghost use Rattle.std.specs.Prelude.{◌≡◌, ◌≤◌, ◌<◌, length, take, IfOk, OnErr, is_ok, if◌then◌else◌};
ghost use Rattle.sp_outside.specs.Bytes.{Appended, ReadsBytes};
ghost use Rattle.sp_outside.specs.Counts.{HasCause, next_count};
ghost use Rattle.sp_outside.specs.Folder.{IsLaterFolder, untold_folder};
ghost use Rattle.sp_outside.specs.Written.{untold_bytes};

use crate::{Failed, Sink, Store};
use std::fs::File;
use std::io::{self, Read, Seek, SeekFrom, Write};
use std::marker::Model;
use std::rt;

/// A file that is read on, and its name.
#[derive(Drop)]
struct OpenFile<F> {
    name: String,
    at: u64,
    file: F,
}

/// The files of the system, by paths from the current folder. A file is kept open from one read to the next as long as the
/// reads follow one another, so what can't be sought, as a pipe, can be read from its beginning. Contracts see a store as the
/// number of its failed reads, which is the count of every name.
#[derive(Drop)]
pub struct DirStore<'a, R: rt::Files> {
    rt: &'a R,
    open: Option<OpenFile<R::File>>,
    faults: u64,
}

impl<'a, R: rt::Files> Model for DirStore<'a, R> {
    ghost use Rattle.std.specs.Prelude.{ℕ};

    ghost Value = { ℕ };

    ghost view = { λ store. store.faults };
}

impl<'a, R: rt::Files + AllocGlobal> DirStore<'a, R> {
    /// The files that `rt` opens.
    pub fn new(rt: &'a R) -> Self
        ensures { result ≡ 0 }
    {
        DirStore {
            rt,
            open: None,
            faults: 0,
        }
    }
}

impl<R: rt::Files + AllocGlobal> Store for DirStore<'_, R> {
    ghost folder = { untold_folder };

    fn read_at(&mut self, name: &str, at: u64, buf: &mut [u8]) -> Result<usize, Failed>
        ensures bound { IfOk result (λ n. n ≤ length buf.new) }
        ensures reads { IfOk result (λ n. ReadsBytes ((untold_folder self.old).content name.now) at n buf.new) }
        ensures later { IsLaterFolder (untold_folder self.old) (untold_folder self.new) }
        ensures cause { HasCause self.old self.new result }

        ensures counted { self.new ≡ (if is_ok result then self.old else next_count self.old) }
    {
        match read_file(self.rt, &mut self.open, name, at, buf) {
            Ok(count) => Ok(count),
            Err(_) => {
                self.faults = self.faults.saturating_add(1);
                Err(Failed)
            }
        }
    }
}

/// Reads a file from `at` on: the open one where it is there, else one that is opened. At the end, after a fault, and where no
/// memory is found for its name it is closed.
fn read_file<R: rt::Files + AllocGlobal>(
    rt: &R,
    open: &mut Option<OpenFile<R::File>>,
    name: &str,
    at: u64,
    buf: &mut [u8],
) -> io::Result<usize>
    ensures { IfOk result (λ n. n ≤ length buf.new) }
{
    let mut file = match open.take() {
        Some(kept) if kept.at == at && kept.name.as_str() == name => {
            let OpenFile {
                name: _,
                at: _,
                file,
            } = kept;
            file
        }
        _ => open_at(rt, name, at)?,
    };
    let count = file.read(buf)?;
    if count > 0 {
        if let Ok(name) = String::from_str(rt.alloc(), name) {
            *open = Some(OpenFile {
                name,
                at: at.saturating_add(count as u64),
                file,
            });
        }
    }
    Ok(count)
}

/// Opens a file that is read from `at` on.
fn open_at<R: rt::Files>(rt: &R, name: &str, at: u64) -> io::Result<R::File> {
    let mut file = File::open(rt, name)?;
    if at > 0 {
        file.seek(SeekFrom::Start(at))?;
    }
    Ok(file)
}

/// A writer as a sink. It doesn't flush, so a writer that holds bytes back is flushed by its owner. Contracts see a sink as the
/// number of its failed writes.
#[derive(Drop)]
pub struct StdSink<W: Write> {
    inner: W,
    faults: u64,
}

impl<W: Write> Model for StdSink<W> {
    ghost use Rattle.std.specs.Prelude.{ℕ};

    ghost Value = { ℕ };

    ghost view = { λ sink. sink.faults };
}

impl<W: Write> StdSink<W> {
    /// A sink that writes to `inner`.
    pub fn new(inner: W) -> StdSink<W>
        ensures { result ≡ 0 }
    {
        StdSink { inner, faults: 0 }
    }
}

impl<W: Write> Sink for StdSink<W> {
    ghost written = { untold_bytes };

    fn write(&mut self, piece: &[u8]) -> Result<usize, Failed>
        ensures most { IfOk result (λ n. n ≤ length piece.now) }
        ensures some { IfOk result (λ n. 0 < length piece.now → 0 < n) }
        ensures appended { IfOk result (λ n.
            Appended (untold_bytes self.old).bytes (untold_bytes self.new).bytes (take n piece.now)) }
        ensures nothing { OnErr result ((untold_bytes self.new).bytes ≡ (untold_bytes self.old).bytes) }
        ensures cause { HasCause self.old self.new result }

        ensures counted { self.new ≡ (if is_ok result then self.old else next_count self.old) }
    {
        if let Ok(count) = self.inner.write(piece) {
            if count > 0 || piece.is_empty() {
                return Ok(count);
            }
        }
        self.faults = self.faults.saturating_add(1);
        Err(Failed)
    }
}
