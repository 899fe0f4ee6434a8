//! A text as it grows.

ghost use Rattle.std.specs.Prelude.{◌≡◌, ◌++◌, [], OnOk};
ghost use Rattle.std.specs.Fmt.{decimal};
ghost use Rattle.sp_show.specs.Decimals.{decimal_of};
ghost use Rattle.sp_spelled.specs.Signs.{gap_bytes};
ghost use Rattle.sp_canonical.specs.Gaps.{gap_of};

use sp_dd::NoMemory;
use sp_show::push_decimal;
use std::alloc::Global;
use std::marker::Model;

/// What stands behind a sign: nothing, a space, or a line's end.
#[derive(Clone, Copy)]
pub enum Gap {
    Tight,
    Space,
    Line,
}

impl Gap {
    /// Its bytes.
    pub fn bytes(self) -> &'static [u8]
        ensures { result.now ≡ gap_bytes (gap_of self) }
    {
        match self {
            Gap::Tight => b"",
            Gap::Space => b" ",
            Gap::Line => b"\n",
        }
    }
}

/// A text as it grows, with room for the words of its numbers. Contracts see it as its bytes.
#[derive(Drop)]
pub struct Page {
    bytes: Vec<u8>,
    word: String,
}

impl Model for Page {
    ghost use Rattle.std.specs.Prelude.{List, ℕ};

    ghost Value = { List ℕ };

    ghost view = { λ p. p.bytes.items };
}

impl Page {
    /// An empty text.
    pub fn new(alloc: Global) -> Page
        ensures { result ≡ [] }
    {
        Page {
            bytes: Vec::new(alloc),
            word: String::new(alloc),
        }
    }

    /// Adds bytes.
    pub fn put(&mut self, piece: &[u8]) -> Result<(), NoMemory>
        ensures { OnOk result (self.new ≡ self.old ++ piece.now) }
    {
        self.bytes.extend_from_slice(piece)?;
        Ok(())
    }

    /// Adds the decimal of a number of ticks.
    pub fn put_ticks(&mut self, ticks: i128) -> Result<(), NoMemory>
        ensures { OnOk result (self.new ≡ self.old ++ decimal_of ticks) }
    {
        self.word.clear();
        push_decimal(&mut self.word, ticks)?;
        self.bytes.extend_from_slice(self.word.as_bytes())?;
        Ok(())
    }

    /// Adds a number.
    pub fn put_number(&mut self, number: usize) -> Result<(), NoMemory>
        ensures { OnOk result (self.new ≡ self.old ++ decimal number) }
    {
        self.word.clear();
        write!(self.word, "{number}")?;
        self.bytes.extend_from_slice(self.word.as_bytes())?;
        Ok(())
    }

    /// The bytes. Takes no memory.
    pub fn into_bytes(self) -> Vec<u8>
        ensures { result.items ≡ self }
    {
        let Page { bytes, .. } = self;
        bytes
    }
}
