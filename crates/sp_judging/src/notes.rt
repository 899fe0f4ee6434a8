//! What is told of a plan file that isn't legal.

ghost use Rattle.std.specs.Prelude.{◌≡◌, ◌++◌, codes, string_bytes, IfOk};
ghost use Rattle.std.specs.Fmt.{decimal};
ghost use Rattle.sp_judging.specs.Notes.{clause_word, event_note, entry_note};

use sp_audit::Clause;
use std::alloc::{AllocError, Global};

/// The word of a clause.
fn clause_word(clause: Clause) -> &'static str
    ensures { result.now ≡ clause_word clause }
{
    match clause {
        Clause::AfterEnd => "after-end",
        Clause::Edition => "edition",
        Clause::Backup => "backup",
        Clause::Publish => "publish",
        Clause::Prune => "prune",
        Clause::End => "end",
        Clause::Unfinished => "unfinished",
        Clause::Closing => "closing",
        Clause::Older => "older",
        Clause::Greatest => "greatest",
        Clause::Action => "action",
        Clause::Belief => "belief",
    }
}

/// The event of that number breaks this clause.
pub(crate) fn event_note(alloc: Global, number: u64, clause: Clause) -> Result<Vec<u8>, AllocError>
    ensures { IfOk result (λ note. note.items ≡ event_note number (clause_word clause)) }
{
    numbered_note(alloc, number, clause_word(clause))
}

/// The value of that number isn't the one that it should be.
pub(crate) fn value_note(alloc: Global, number: u64) -> Result<Vec<u8>, AllocError>
    ensures { IfOk result (λ note. note.items ≡ event_note number (codes "value")) }
{
    numbered_note(alloc, number, "value")
}

/// What is told of the event or the value of that number.
fn numbered_note(alloc: Global, number: u64, word: &str) -> Result<Vec<u8>, AllocError>
    ensures { IfOk result (λ note. note.items ≡ event_note number word.now) }
{
    let note = format!(in alloc; "event {number}: {word}")?;
    Ok(note.into_bytes())
}

/// The entry of that number of a session's log breaks this clause.
pub(crate) fn entry_note(
    alloc: Global,
    session: &[u8],
    number: u64,
    clause: Clause,
) -> Result<Vec<u8>, AllocError>
    ensures { IfOk result (λ note. note.items ≡ entry_note session.now number (clause_word clause)) }
{
    let mut note = Vec::new(alloc);
    note.extend_from_slice(b"session ")?;
    note.extend_from_slice(session)?;
    let rest = entry_rest(alloc, number, clause_word(clause))?;
    note.extend_from_slice(rest.as_bytes())?;
    Ok(note)
}

/// What is told behind the session's name.
fn entry_rest(alloc: Global, number: u64, word: &str) -> Result<String, AllocError>
    ensures { IfOk result (λ rest. string_bytes rest ≡ codes " entry " ++ (decimal number ++ (codes ": " ++ word.now))) }
{
    format!(in alloc; " entry {number}: {word}")
}
