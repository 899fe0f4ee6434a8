//! The lines of sessions' logs.

ghost use Rattle.std.specs.Prelude.{◌≡◌, ◌++◌, ◌∷◌, [], OnOk};
ghost use Rattle.sp_lines.specs.Lines.{lines_of, numbers_behind_spaces};
ghost use Rattle.sp_session.specs.Logs.{entry_of, entries_of, log_of, logs_of};
ghost use Rattle.sp_planfile.specs.PlanText.{entry_line, log_text, logs_text, logs_section};

use crate::writing::put_count;
use sp_dd::NoMemory;
use sp_lines::{put, put_numbers};
use sp_session::{Entry, SessionLog};

/// Adds the lines of logs, with their count.
pub(crate) fn put_logs(text: &mut Vec<u8>, logs: &[SessionLog]) -> Result<(), NoMemory>
    ensures { OnOk result (text.new.items ≡ text.old.items ++ logs_section (logs_of logs.now)) }
{
    put_count(text, b"sessions", logs.len())?;
    put_log_lines(text, logs)
}

/// Adds the lines of logs.
fn put_log_lines(text: &mut Vec<u8>, logs: &[SessionLog]) -> Result<(), NoMemory>
    ensures { OnOk result (text.new.items ≡ text.old.items ++ logs_text (logs_of logs.now)) }
{
    for log in logs {
        put_log(text, log)?;
    }
    Ok(())
}

/// Adds the lines of a log.
fn put_log(text: &mut Vec<u8>, log: &SessionLog) -> Result<(), NoMemory>
    ensures { OnOk result (text.new.items ≡ text.old.items ++ log_text (log_of log.now)) }
{
    put(text, b"session ")?;
    put(text, log.name.bytes())?;
    put(text, b"\n")?;
    put_entries(text, log.entries.as_slice())
}

/// Adds the lines of a log's entries.
fn put_entries(text: &mut Vec<u8>, entries: &[Entry]) -> Result<(), NoMemory>
    ensures { OnOk result (text.new.items ≡ text.old.items ++ lines_of entry_line (entries_of entries.now)) }
{
    for entry in entries {
        put_entry(text, entry)?;
    }
    Ok(())
}

/// Adds the line of an entry.
fn put_entry(text: &mut Vec<u8>, entry: &Entry) -> Result<(), NoMemory>
    ensures { OnOk result (text.new.items ≡ text.old.items ++ (entry_line (entry_of entry.now) ++ 10 ∷ [])) }
{
    match *entry {
        Entry::Told(edition) => put_line(text, b"told", &[edition]),
        Entry::Act {
            edition,
            member,
            action,
        } => put_line(text, b"act", &[edition, member, action]),
        Entry::Observe(observation) => put_line(text, b"observe", &[observation]),
        Entry::Unseen(observation) => put_line(text, b"unseen", &[observation]),
        Entry::Closing {
            edition,
            member,
            action,
        } => put_line(text, b"closing", &[edition, member, action]),
    }
}

/// Adds a line of a word and numbers.
fn put_line(text: &mut Vec<u8>, word: &[u8], numbers: &[u64]) -> Result<(), NoMemory>
    ensures { OnOk result (text.new.items ≡ text.old.items ++ ((word.now ++ numbers_behind_spaces numbers.now) ++ 10 ∷ [])) }
{
    put(text, word)?;
    put_numbers(text, numbers)?;
    put(text, b"\n")
}
