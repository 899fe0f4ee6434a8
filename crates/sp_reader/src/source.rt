//! The model of a file's bytes.

ghost use Rattle.std.specs.Prelude.{◌≡◌, ℕ, List, IfOk, Err};
ghost use Rattle.sp_reader.specs.Sources.{Reads, IsTreeOf, IsFaulty};

use crate::kinds::{grammar_name, kind_text};
use sp_checks::{ModelError, model_of};
use sp_dd::NoMemory;
use sp_lex::LexError;
use sp_model::{Model, Name};
use sp_syntax::{SyntaxError, Text};
use std::alloc::{AllocError, Global};

/// Why bytes are no model.
#[derive(Drop)]
pub enum ReaderError {
    /// They are refused at this byte, counted from 0 (the number of bytes where nothing stands there), for the reason with
    /// this name.
    Refused { at: u64, kind: Name },
    NoMemory,
}

impl From<NoMemory> for ReaderError {
    ghost use Rattle.sp_reader.specs.declared.source.ReaderError.{ReaderError};

    ghost from_gives = { λ _ e. e ≡ ReaderError.NoMemory };

    fn from(_: NoMemory) -> Self {
        ReaderError::NoMemory
    }
}

/// The model that bytes mean, or where and why they are refused.
pub fn read_model(alloc: Global, source: &[u8]) -> Result<Model, ReaderError>
    ensures model { IfOk result (λ model. Reads source.now model) }
    ensures refused { (at : ℕ) (kind : List ℕ) → result ≡ Err (ReaderError.Refused at kind) → IsFaulty source.now at kind }
{
    let tree = match tree_of(alloc, source) {
        Ok(tree) => tree,
        Err(error) => return Err(error),
    };
    match model_of(alloc, source, &tree) {
        Ok(model) => Ok(model),
        Err(ModelError::Fault { at, kind }) => {
            let kind = kind_text(alloc, source, &tree, kind)?;
            Err(ReaderError::Refused { at, kind })
        }
        Err(ModelError::NoMemory) => Err(ReaderError::NoMemory),
    }
}

/// The tree of bytes.
fn tree_of(alloc: Global, source: &[u8]) -> Result<Text, ReaderError>
    ensures tree { IfOk result (λ tree. IsTreeOf source.now tree) }
    ensures refused { (at : ℕ) (kind : List ℕ) → result ≡ Err (ReaderError.Refused at kind) → IsFaulty source.now at kind }
{
    let tokens = match sp_lex::tokens(alloc, source) {
        Ok(tokens) => tokens,
        Err(LexError::NotAscii { at }) => {
            let kind = Name::new(alloc, b"NotAscii")?;
            return Err(ReaderError::Refused { at, kind });
        }
        Err(LexError::NoMemory) => return Err(ReaderError::NoMemory),
    };
    match sp_syntax::parse(alloc, source, &tokens) {
        Ok(text) => Ok(text),
        Err(SyntaxError::Fault { at, kind }) => {
            let kind = Name::new(alloc, grammar_name(kind).as_bytes())?;
            Err(ReaderError::Refused { at, kind })
        }
        Err(SyntaxError::NoMemory) => Err(ReaderError::NoMemory),
    }
}
