//! Files in memory.

ghost use Rattle.std.specs.Prelude.{◌≡◌, [], ◌∷◌, ◌++◌, OnOk, OnErr};
ghost use Rattle.std.specs.Option.{option_copied};
ghost use Rattle.sp_outside.specs.Files.{content_of};

use sp_dd::NoMemory;
use std::alloc::Global;
use std::marker::Model;

/// A name with its bytes.
#[derive(Drop)]
struct Entry {
    name: String,
    bytes: Vec<u8>,
}

/// A list of names with their bytes. Where a name stands in it more than once, its first entry is the name's content.
#[derive(Drop)]
pub struct Files {
    alloc: Global,
    entries: Vec<Entry>,
}

impl Model for Files {
    ghost use Rattle.std.specs.Prelude.{List};
    ghost use Rattle.sp_outside.specs.Files.{File};

    ghost Value = { List File };

    ghost use Rattle.sp_outside.specs.Entries.{files_of};

    ghost view = { λ files. files_of files.entries.items };
}

impl Files {
    /// An empty list, which takes its memory from `alloc` as it grows.
    pub fn new(alloc: Global) -> Files
        ensures { result ≡ [] }
    {
        Files {
            alloc,
            entries: Vec::new(alloc),
        }
    }

    /// Appends a name with its bytes.
    pub fn add(&mut self, name: &str, bytes: &[u8]) -> Result<(), NoMemory>
        ensures ok { OnOk result (self.new ≡ self.old ++ record { name = name.now; bytes = bytes.now } ∷ []) }
        ensures err { OnErr result (self.new ≡ self.old) }
    {
        let name = String::from_str(self.alloc, name)?;
        let bytes = Vec::from_slice(self.alloc, bytes)?;
        self.entries
            .push(Entry { name, bytes })
            .map_err(|_| NoMemory)?;
        Ok(())
    }

    /// The content of a name, if there is one.
    #[tactic(auto, using(crate::proofs::FileLemmas::drop_item))]
    pub fn content(&self, name: &str) -> Option<&[u8]>
        ensures { option_copied result ≡ content_of self.now name.now }
    {
        for entry in &self.entries {
            if entry.name.as_str() == name {
                return Some(entry.bytes.as_slice());
            }
        }
        None
    }
}
