ghost use Rattle.std.specs.Prelude.{◌≡◌, ◌<◌, ◌++◌, [], ◌∷◌, Some, length, slice_get, IfErr, OnOk, OnErr};

use crate::error::SyntaxError;
use std::alloc::Global;
use std::marker::Model;

/// A list of parts of a text, in the text's order.
#[derive(Drop)]
pub struct Sequence<T> {
    parts: Vec<T>,
}

impl<T> Model for Sequence<T> {
    ghost use Rattle.std.specs.Prelude.{List};
    ghost use Rattle.std.specs.Coded.{coded_list};

    ghost Value = { List T };

    ghost coded = { coded_list T.code };

    ghost view = { λ s. s.parts.items };
}

impl<T> Sequence<T> {
    /// An empty list.
    pub fn new(alloc: Global) -> Sequence<T>
        ensures { result ≡ [] }
    {
        Sequence {
            parts: Vec::new(alloc),
        }
    }

    /// How many parts there are.
    pub fn len(&self) -> u64
        ensures { result ≡ length self.now }
    {
        self.parts.len() as u64
    }

    /// The part at a place, counted from 0.
    pub fn at(&self, place: u64) -> &T
        requires { place < length self.now }
        ensures { slice_get self.now place ≡ Some result.now }
    {
        &self.parts[place as usize]
    }

    /// All parts.
    pub fn as_slice(&self) -> &[T]
        ensures { result.now ≡ self.now }
    {
        self.parts.as_slice()
    }
}

impl<T: Drop> Sequence<T> {
    /// Puts a part at the end; the one error is want of memory, and then nothing has changed.
    pub fn push(&mut self, part: T) -> Result<(), SyntaxError>
        ensures ok { OnOk result (self.new ≡ self.old ++ part ∷ []) }
        ensures err { OnErr result (self.new ≡ self.old) }
        ensures error { IfErr result (λ e. e ≡ SyntaxError.NoMemory) }
    {
        self.parts.push(part)?;
        Ok(())
    }
}
