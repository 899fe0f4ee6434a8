//! A store and a sink in memory, whose calls fail where they are told to.

ghost use Rattle.std.specs.Prelude.{◌≡◌, ◌≤◌, ◌<◌, ◌↔◌, ◌-◌, ℕ, [], length, min, take, Contains, IfOk, IsErr, OnErr};
ghost use Rattle.sp_outside.specs.Bytes.{Appended, ReadsBytes};
ghost use Rattle.sp_outside.specs.Counts.{HasCause, next_count};
ghost use Rattle.sp_outside.specs.Folder.{IsLaterFolder};
ghost use Rattle.sp_outside.specs.Memory.{GivesAll, ReadFails, folder_of, read_from, written_of, written_to};

use crate::{Failed, Files, Sink, Store};
use sp_dd::Ids;
use std::alloc::Global;
use std::marker::Model;

/// A store of files in memory. A read gives as many bytes as the buffer takes or as are left. It fails where it was told to, and
/// where there is no such name. One number of failed reads is the count of every name.
#[derive(Drop)]
pub struct MemStore {
    files: Files,
    failing: Ids,
    reads: u64,
    faults: u64,
}

impl Model for MemStore {
    ghost use Rattle.sp_outside.specs.Memory.{StoreState};

    ghost Value = { StoreState };

    ghost view = { λ store. record {
      files = store.files;
      failing = store.failing;
      reads = store.reads;
      faults = store.faults;
    } };
}

impl MemStore {
    /// A store of these files. Its k-th read, counted from 1, fails where k is in `failing`.
    pub fn new(files: Files, failing: Ids) -> MemStore
        ensures { result ≡ record { files = files; failing = failing; reads = 0; faults = 0 } }
    {
        MemStore {
            files,
            failing,
            reads: 0,
            faults: 0,
        }
    }
}

impl Store for MemStore {
    ghost folder = { folder_of };

    fn read_at(&mut self, name: &str, at: u64, buf: &mut [u8]) -> Result<usize, Failed>
        ensures bound { IfOk result (λ n. n ≤ length buf.new) }
        ensures reads { IfOk result (λ n. ReadsBytes ((folder_of self.old).content name.now) at n buf.new) }
        ensures later { IsLaterFolder (folder_of self.old) (folder_of self.new) }
        ensures cause { HasCause self.old.faults self.new.faults result }

        ensures fails { IsErr result ↔ ReadFails self.old name.now }
        ensures gives { IfOk result (GivesAll self.old name.now at (length buf.old)) }
        ensures counted { self.new ≡ read_from self.old result }
    {
        self.reads = self.reads.saturating_add(1);
        if !self.failing.as_slice().contains(&self.reads) {
            if let Some(bytes) = self.files.content(name) {
                return Ok(copy_from(bytes, at, buf));
            }
        }
        self.faults = self.faults.saturating_add(1);
        Err(Failed)
    }
}

/// Copies the bytes from `at` on to the front of the buffer, as many as fit.
fn copy_from(bytes: &[u8], at: u64, buf: &mut [u8]) -> usize
    ensures bound { result ≤ length buf.new }
    ensures count { result ≡ min (length buf.old) (length bytes.now - at) }
    ensures reads { ReadsBytes (Some bytes.now) at result buf.new }
{
    if at >= bytes.len() as u64 {
        return 0;
    }
    let rest = &bytes[at as usize..];
    let count = rest.len().min(buf.len());
    buf[..count].copy_from_slice(&rest[..count]);
    count
}

/// A sink that keeps its bytes in memory.
#[derive(Drop)]
pub struct MemSink {
    bytes: Vec<u8>,
    most: u64,
    failing: Ids,
    writes: u64,
    faults: u64,
}

impl Model for MemSink {
    ghost use Rattle.std.specs.Prelude.{◌≤◌};
    ghost use Rattle.sp_outside.specs.Memory.{SinkState};

    ghost Value = { SinkState };

    ghost view = { λ sink. record {
      bytes = sink.bytes.items;
      most = sink.most;
      failing = sink.failing;
      writes = sink.writes;
      faults = sink.faults;
    } };

    ghost invariant = { λ sink. 1 ≤ sink.most };
}

impl MemSink {
    /// An empty sink, which takes its memory from `alloc` as it grows. A write takes at most `most` bytes. The k-th write,
    /// counted from 1, fails where k is in `failing`, and a write that finds no memory for its bytes fails too.
    pub fn new(alloc: Global, most: u64, failing: Ids) -> MemSink
        requires { 1 ≤ most }
        ensures { result ≡ record { bytes = []; most = most; failing = failing; writes = 0; faults = 0 } }
    {
        MemSink {
            bytes: Vec::new(alloc),
            most,
            failing,
            writes: 0,
            faults: 0,
        }
    }

    /// The bytes that were written.
    pub fn text(&self) -> &[u8]
        ensures { result.now ≡ self.now.bytes }
    {
        self.bytes.as_slice()
    }
}

impl Sink for MemSink {
    ghost written = { written_of };

    fn write(&mut self, piece: &[u8]) -> Result<usize, Failed>
        ensures most { IfOk result (λ n. n ≤ length piece.now) }
        ensures some { IfOk result (λ n. 0 < length piece.now → 0 < n) }
        ensures appended { IfOk result (λ n.
            Appended (written_of self.old).bytes (written_of self.new).bytes (take n piece.now)) }
        ensures nothing { OnErr result ((written_of self.new).bytes ≡ (written_of self.old).bytes) }
        ensures cause { HasCause self.old.faults self.new.faults result }

        ensures taken { IfOk result (λ n. n ≡ min (length piece.now) self.old.most) }
        ensures fails { Contains self.old.failing (next_count self.old.writes) → IsErr result }
        ensures counted { self.new ≡ written_to self.old piece.now result }
    {
        self.writes = self.writes.saturating_add(1);
        if !self.failing.as_slice().contains(&self.writes) {
            let count = piece.len().min(self.most as usize);
            if self.bytes.extend_from_slice(&piece[..count]).is_ok() {
                return Ok(count);
            }
        }
        self.faults = self.faults.saturating_add(1);
        Err(Failed)
    }
}
