//! The logs of a plan file.

ghost use Rattle.std.specs.Prelude.{◌≡◌, ℕ, ◌++◌, ◌∷◌, List, codes, length, Err, IfOk, MatchOption};
ghost use Rattle.std.specs.List.{AllByRecursion};
ghost use Rattle.sp_session.specs.Logs.{entries_of, logs_of};
ghost use Rattle.sp_lines.specs.Lines.{lines_of, IsSmall, BeginsLineOf};
ghost use Rattle.sp_planfile.specs.Form.{IsSessionName};
ghost use Rattle.sp_planfile.specs.PlanText.{count_line, entry_line, logs_text, logs_section};
ghost use Rattle.sp_filed.specs.declared.stops.Stop.TheVariants as stops;
ghost use Rattle.sp_filed.specs.Sizes.{IsEntryWithin};
ghost use Rattle.sp_filed.specs.Stops.{AreLogs, HasNoEntry, StopsBeforeLog, StopsInLogs, session_line};

use crate::entries::{entry_at, name_at};
use crate::sections::count_first;
use crate::sizes::Sizes;
use crate::stops::Stop;
use sp_dd::NoMemory;
use sp_lines::first_line;
use sp_model::Name;
use sp_names::Names;
use sp_session::{Entries, SessionLog, Transcript};
use std::alloc::Global;

/// The entries that a text begins with, and what stands behind them: no entry.
fn entries_first<'a>(
    alloc: Global,
    text: &'a [u8],
    sizes: Sizes,
) -> Result<(Entries, &'a [u8]), NoMemory>
    ensures { IfOk result (λ r. (text.now ≡ lines_of entry_line (entries_of r.0) ++ r.1.now) × AllByRecursion (IsEntryWithin sizes) (entries_of r.0) × ¬ (BeginsLineOf entry_line (IsEntryWithin sizes) r.1.now)) }
{
    let mut entries = Entries::new(alloc);
    let mut rest = text;
    while let Some((line, more)) = first_line(rest) {
        let Some(entry) = entry_at(line, sizes) else {
            return Ok((entries, rest));
        };
        entries.push(entry)?;
        rest = more;
    }
    Ok((entries, rest))
}

/// The logs that a text begins with, as its count says, and what stands behind them.
pub(crate) fn logs_first<'a>(
    alloc: Global,
    text: &'a [u8],
    sizes: Sizes,
) -> Result<(Transcript, &'a [u8]), Stop>
    ensures ok { IfOk result (λ r. (text.now ≡ logs_section (logs_of r.0) ++ r.1.now) × IsSmall (length (logs_of r.0)) × AreLogs sizes (logs_of r.0) × HasNoEntry sizes (logs_of r.0) r.1.now) }
    ensures err { (left : ℕ) → result ≡ Err (stops.Shape left) → StopsInLogs sizes text.now left }
{
    let (count, rest) = match count_first(text, b"sessions") {
        Ok(found) => found,
        Err(stop) => return Err(stop),
    };
    match log_lines(alloc, rest, count, sizes) {
        Ok(found) => Ok(found),
        Err(stop) => Err(stop),
    }
}

/// So many logs, and what stands behind them.
fn log_lines<'a>(
    alloc: Global,
    text: &'a [u8],
    count: u64,
    sizes: Sizes,
) -> Result<(Transcript, &'a [u8]), Stop>
    ensures ok { IfOk result (λ r. (text.now ≡ logs_text (logs_of r.0) ++ r.1.now) × (length (logs_of r.0) ≡ count) × AreLogs sizes (logs_of r.0) × HasNoEntry sizes (logs_of r.0) r.1.now) }
    ensures err { (left : ℕ) → result ≡ Err (stops.Shape left) → StopsBeforeLog sizes count text.now left }
{
    let mut names = Names::new(alloc);
    let mut logs = Transcript::new(alloc);
    let mut rest = text;
    for _ in 0..count {
        let stop = Stop::Shape(rest.len() as u64);
        let Some((name, more)) = session_first(rest) else {
            return Err(stop);
        };
        let is_new = names.declare(name)?;
        if !is_new {
            return Err(stop);
        }
        let (log, behind) = log_of(alloc, name, more, sizes)?;
        logs.push(log)?;
        rest = behind;
    }
    Ok((logs, rest))
}

/// The name of the session whose log a text begins with, and what stands behind that line.
fn session_first(text: &[u8]) -> Option<(&[u8], &[u8])>
    ensures { MatchOption result (¬ (BeginsLineOf session_line IsSessionName text.now)) (λ r. IsSessionName r.0.now × (text.now ≡ session_line r.0.now ++ 10 ∷ r.1.now)) }
{
    let Some((line, rest)) = first_line(text) else {
        return None;
    };
    match name_at(line) {
        Some(name) => Some((name, rest)),
        None => None,
    }
}

/// The log of a name with the entries that a text begins with, and what stands behind them: no entry.
fn log_of<'a>(
    alloc: Global,
    name: &[u8],
    text: &'a [u8],
    sizes: Sizes,
) -> Result<(SessionLog, &'a [u8]), NoMemory>
    ensures { IfOk result (λ r. (r.0.name ≡ name.now) × (text.now ≡ lines_of entry_line (entries_of r.0.entries) ++ r.1.now) × AllByRecursion (IsEntryWithin sizes) (entries_of r.0.entries) × ¬ (BeginsLineOf entry_line (IsEntryWithin sizes) r.1.now)) }
{
    let name = Name::new(alloc, name)?;
    let (entries, rest) = entries_first(alloc, text, sizes)?;
    Ok((SessionLog { name, entries }, rest))
}
