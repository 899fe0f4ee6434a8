//! The plan file of a finished book.

ghost use Rattle.std.specs.Prelude.{◌≡◌, true, IfOk};
ghost use Rattle.std.specs.List.{AllByRecursion};
ghost use Rattle.sp_core.specs.Books.{state_of};
ghost use Rattle.sp_session.specs.Logs.{entries_of, entry_of, logs_of};
ghost use Rattle.sp_planfile.specs.Form.{HasSmallNumbers};
ghost use Rattle.sp_planning.specs.BookFiles.{AreFileLogs, IsBookFile};
ghost use Rattle.sp_planning.specs.ScriptFiles.{AreSmallLogs};

use crate::numbers::{read_list, read_numbers};
use sp_core::Book;
use sp_dd::NoMemory;
use sp_planfile::plan_text_2;
use sp_planner::opening_values;
use sp_session::{Entry, SessionLog, Transcript};
use std::alloc::Global;

/// The plan file of a book that is done, of version 2, with the logs of sessions.
pub fn book_file(alloc: Global, book: Book, transcript: &Transcript) -> Result<Vec<u8>, NoMemory>
    requires done { (state_of book).done ≡ true }
    requires logs { AreFileLogs book.task.model (logs_of transcript.now) }
    ensures { IfOk result (λ text. IsBookFile book transcript.now text.items) }
{
    // what is known of each book
    let _ = book.task();
    let values = opening_values(alloc, &book)?;
    let Ok(run) = book.into_run() else {
        unreachable!()
    };
    read_numbers(run.events.as_slice());
    read_logs(transcript.as_slice());
    read_list(&[run.task.options().seed]);
    // what is known of the counts, and of the weights at belief 0
    let _ = values.len();
    let _ = transcript.len();
    let _ = run.task.model().parts();
    let _ = run.task.weights(0).func();
    let text = plan_text_2(alloc, &run, &values, transcript)?;
    Ok(text)
}

/// Reads logs, and does nothing with them.
fn read_logs(logs: &[SessionLog])
    ensures { AreSmallLogs logs.now }
{
    for log in logs {
        read_entries(log.entries.as_slice());
    }
}

/// Reads entries.
fn read_entries(entries: &[Entry])
    ensures { AllByRecursion HasSmallNumbers (entries_of entries.now) }
{
    for entry in entries {
        read_entry(entry);
    }
}

/// Reads an entry.
fn read_entry(entry: &Entry)
    ensures { HasSmallNumbers (entry_of entry.now) }
{
    match *entry {
        Entry::Told(edition) => read_list(&[edition]),
        Entry::Act {
            edition,
            member,
            action,
        } => read_list(&[edition, member, action]),
        Entry::Observe(observation) => read_list(&[observation]),
        Entry::Unseen(observation) => read_list(&[observation]),
        Entry::Closing {
            edition,
            member,
            action,
        } => read_list(&[edition, member, action]),
    }
}
