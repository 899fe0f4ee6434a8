//! Scripts of acting sessions.

ghost use Rattle.std.specs.Prelude.{◌≡◌, ℕ, List, [], ◌∷◌, ◌≤◌, length, All, IfOk, IfErr, string_bytes};
ghost use Rattle.sp_theory.specs.Points.{count_of};
ghost use Rattle.sp_model.specs.Problem.{sizes_of};
ghost use Rattle.sp_outside.specs.Folder.{IsLaterFolder};
ghost use Rattle.sp_script.specs.Laws.{IsObservationWithin};
ghost use Rattle.sp_script.specs.Script.{IsScript};
ghost use Rattle.sp_tool.specs.Lines.{refused_script_line};
ghost use Rattle.sp_tool.specs.Kinds.{script_kind_word};
ghost use Rattle.sp_tool.specs.Inputs.{script_file, script_limit};
ghost use Rattle.sp_tool.specs.Table.{Told};
ghost use Rattle.sp_tool.specs.Faults.{HindersBehind, TellsReason};

use crate::fault::Fault;
use crate::file::file_bytes;
use crate::lines;
use sp_model::Model;
use sp_outside::Store;
use sp_script::{Commands, ScriptError, ScriptKind, read_script};
use std::alloc::{AllocError, Global};

/// How many bytes a script may have.
const SCRIPT_LIMIT: u64 = 1_048_576;

/// The commands of the script in a file, whose sessions act on a model.
pub fn file_script<S: Store>(
    alloc: Global,
    store: &mut S,
    file: &str,
    model: &Model,
) -> Result<Commands, Fault>
    ensures commands { IfOk result (λ cs. (source : List ℕ) × Told ((S.folder store.old).content file.now) source × (length source ≤ script_limit) × IsScript model.now.sights source cs) }
    ensures within { IfOk result (λ cs. All (IsObservationWithin (count_of (sizes_of model.now.sights))) cs) }
    ensures fault { IfErr result (λ f. HindersBehind (λ m. m ≡ model.now) (script_file file.now ∷ []) (S.folder store.old) (S.folder store.new) f) }
    ensures later { IsLaterFolder (S.folder store.old) (S.folder store.new) }
{
    match file_bytes(alloc, store, file, SCRIPT_LIMIT) {
        Ok(source) => script_in(alloc, file, source.as_slice(), model),
        Err(fault) => Err(fault),
    }
}

/// The commands of these bytes, which are those of this file.
fn script_in(alloc: Global, file: &str, source: &[u8], model: &Model) -> Result<Commands, Fault>
    ensures commands { IfOk result (λ cs. IsScript model.now.sights source.now cs) }
    ensures within { IfOk result (λ cs. All (IsObservationWithin (count_of (sizes_of model.now.sights))) cs) }
    ensures fault { IfErr result (λ f. TellsReason (λ m. m ≡ model.now) (script_file file.now) source.now f) }
{
    // what is known of each model
    let _ = model.parts();
    match read_script(alloc, source, model) {
        Ok(commands) => Ok(commands),
        Err(ScriptError::Fault { line: number, kind }) => {
            let line = script_line(alloc, file, number, kind)?;
            Err(Fault::Refused(line))
        }
        Err(ScriptError::NoMemory) => Err(Fault::NoMemory),
    }
}

/// The line for a script that isn't accepted, for what stands on the line of this number.
fn script_line(
    alloc: Global,
    file: &str,
    number: u64,
    kind: ScriptKind,
) -> Result<Vec<u8>, AllocError>
    ensures { IfOk result (λ line. line.items ≡ refused_script_line file.now number (script_kind_word kind)) }
{
    let word = word_of(alloc, kind)?;
    lines::write_script_line(alloc, file, number, word.as_str())
}

/// The name of what is at fault in a script, with its limit where there is one.
fn word_of(alloc: Global, kind: ScriptKind) -> Result<String, AllocError>
    ensures { IfOk result (λ word. string_bytes word ≡ script_kind_word kind) }
{
    match kind {
        ScriptKind::BadLine => "BadLine".to_string(alloc),
        ScriptKind::NotOpen => "NotOpen".to_string(alloc),
        ScriptKind::Twice => "Twice".to_string(alloc),
        ScriptKind::NoAction => "NoAction".to_string(alloc),
        ScriptKind::UnknownValue => "UnknownValue".to_string(alloc),
        ScriptKind::TooMany { limit } => format!(in alloc; "TooMany {limit}"),
    }
}
