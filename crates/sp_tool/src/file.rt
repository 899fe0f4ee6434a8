//! The model of a file.

ghost use Rattle.std.specs.Prelude.{◌≡◌, ℕ, List, [], ◌∷◌, ◌≤◌, length, IfOk, IfErr};
ghost use Rattle.sp_outside.specs.Folder.{IsLaterFolder};
ghost use Rattle.sp_reader.specs.Sources.{Reads};
ghost use Rattle.sp_tool.specs.Inputs.{TellsNone, model_file, model_limit};
ghost use Rattle.sp_tool.specs.Table.{Told};
ghost use Rattle.sp_tool.specs.Faults.{HindersReading, HindersFiles, TellsReason};

use crate::fault::Fault;
use crate::lines;
use sp_model::Model;
use sp_outside::{ReadError, Store};
use sp_reader::{ReaderError, read_model};
use std::alloc::Global;

/// How many bytes a model file may have.
const MODEL_LIMIT: u64 = 16_777_216;

/// The model of a file.
pub fn file_model<S: Store>(alloc: Global, store: &mut S, file: &str) -> Result<Model, Fault>
    ensures model { IfOk result (λ m. (source : List ℕ) × Told ((S.folder store.old).content file.now) source × (length source ≤ model_limit) × Reads source m) }
    ensures fault { IfErr result (λ f. HindersFiles (model_file file.now ∷ []) (S.folder store.old) (S.folder store.new) f) }
    ensures later { IsLaterFolder (S.folder store.old) (S.folder store.new) }
{
    match file_bytes(alloc, store, file, MODEL_LIMIT) {
        Ok(source) => model_in(alloc, file, source.as_slice()),
        Err(fault) => Err(fault),
    }
}

/// The bytes of a file, of which there may be so many.
pub fn file_bytes<S: Store>(
    alloc: Global,
    store: &mut S,
    file: &str,
    limit: u64,
) -> Result<Vec<u8>, Fault>
    ensures bytes { IfOk result (λ source. Told ((S.folder store.old).content file.now) source.items × (length source.items ≤ limit)) }
    ensures fault { IfErr result (λ f. HindersReading file.now limit (S.folder store.old) (S.folder store.new) f) }
    ensures later { IsLaterFolder (S.folder store.old) (S.folder store.new) }
{
    match sp_outside::read_whole(alloc, store, file, limit) {
        Ok(source) => Ok(source),
        Err(ReadError::Failed) => {
            let line = lines::write_cannot_read_line(alloc, file)?;
            Err(Fault::ReadFault(line))
        }
        Err(ReadError::TooLong { limit }) => {
            let line = lines::write_too_long_line(alloc, file, limit)?;
            Err(Fault::Refused(line))
        }
        Err(ReadError::NoMemory) => Err(Fault::NoMemory),
    }
}

/// The model of these bytes, which are those of this file.
pub fn model_in(alloc: Global, file: &str, source: &[u8]) -> Result<Model, Fault>
    ensures model { IfOk result (λ m. Reads source.now m) }
    ensures fault { IfErr result (λ f. TellsReason TellsNone (model_file file.now) source.now f) }
{
    match read_model(alloc, source) {
        Ok(model) => Ok(model),
        Err(ReaderError::Refused { at, kind }) => {
            let line = lines::write_refused_line(alloc, file, at, kind.bytes())?;
            Err(Fault::Refused(line))
        }
        Err(ReaderError::NoMemory) => Err(Fault::NoMemory),
    }
}
