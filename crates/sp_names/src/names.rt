ghost use Rattle.std.specs.Prelude.{◌≡◌, [], ◌∷◌, ◌++◌, not, IfOk, OnOk, OnErr};
ghost use Rattle.std.specs.List.{list_any};
ghost use Rattle.std.specs.Str.{bytes_eq};
ghost use Rattle.sp_names.specs.Names.{number_of, texts, with_name};

use indexmap::IndexSet;
use sp_dd::NoMemory;
use std::alloc::Global;
use std::marker::Model;

/// Names in the order in which they were declared; one that is there already isn't taken again. Contracts see them as the list of
/// their bytes.
#[derive(Drop)]
pub struct Names<'a> {
    index: IndexSet<&'a [u8]>,
}

impl<'a> Model for Names<'a> {
    ghost use Rattle.std.specs.Prelude.{List, ℕ};
    ghost use Rattle.sp_names.specs.Names.{texts};

    ghost Value = { List (List ℕ) };

    ghost view = { λ names. texts names.index.keys };
}

impl<'a> Names<'a> {
    /// No names; memory is taken from `alloc` as they are declared.
    pub fn new(alloc: Global) -> Names<'a>
        ensures { result ≡ [] }
    {
        Names {
            index: IndexSet::new(alloc),
        }
    }

    /// The number of a name, where it was declared. Takes no memory.
    pub fn number_of(&self, name: &'a [u8]) -> Option<u64>
        ensures { result ≡ number_of self.now name.now }
    {
        match self.index.get_index_of(name) {
            Some(number) => Some(number as u64),
            None => None,
        }
    }

    /// Declares a name, which gets the next number where it is new: whether it is.
    pub fn declare(&mut self, name: &'a [u8]) -> Result<bool, NoMemory>
        ensures new { IfOk result (λ is_new. is_new ≡ not (list_any (bytes_eq name.now) self.old)) }
        ensures names { OnOk result (self.new ≡ with_name self.old name.now) }
        ensures err { OnErr result (self.new ≡ self.old) }
    {
        insert(&mut self.index, name)
    }
}

/// Puts a name behind those of the index, unless it is there: whether it is new.
fn insert<'a>(index: &mut IndexSet<&'a [u8]>, name: &'a [u8]) -> Result<bool, NoMemory>
    ensures new { IfOk result (λ is_new. is_new ≡ not (list_any (bytes_eq name.now) (texts index.old.keys))) }
    ensures names { OnOk result (texts index.new.keys ≡ with_name (texts index.old.keys) name.now) }
    ensures err { OnErr result (texts index.new.keys ≡ texts index.old.keys) }
{
    match index.insert_full(name) {
        Ok((_, is_new)) => Ok(is_new),
        Err(_) => Err(NoMemory),
    }
}
