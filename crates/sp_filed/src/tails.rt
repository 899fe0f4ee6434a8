//! What stands behind the beliefs of a plan file, to its end.

ghost use Rattle.std.specs.Prelude.{◌≡◌, ◌≢◌, ℕ, suc, ◌<◌, ◌++◌, List, codes, length, Err, Ok, IfOk, option_map};
ghost use Rattle.sp_theory.specs.Logs as logs;
ghost use Rattle.sp_value.specs.Events.{events_of};
ghost use Rattle.sp_session.specs.Logs.{logs_of};
ghost use Rattle.sp_filed.specs.declared.stops.Stop.TheVariants as stops;
ghost use Rattle.sp_filed.specs.Stops.{HasNoEntry};
ghost use Rattle.sp_filed.specs.Tails.{StopsAtEnd, StopsBehindValues, StopsBehindEvents, StopsBehindMoves, AreReadLogs, IsReadBehindEvents, IsReadBehindMoves, IsEndOfFile};

use crate::logs::logs_first;
use crate::sections::{editions_of, events_first, values_first};
use crate::sizes::Sizes;
use crate::stops::Stop;
use sp_lines::behind;
use sp_session::Transcript;
use sp_value::{Events, Values};
use std::alloc::Global;

/// Whether the last line stands first, and nothing behind it.
fn end_of(text: &[u8]) -> Result<(), Stop>
    ensures ok { IfOk result (λ r. text.now ≡ codes "done\n") }
    ensures err { (left : ℕ) → result ≡ Err (stops.Shape left) → IsEndOfFile text.now left }
{
    let Some(rest) = behind(text, b"done\n") else {
        return Err(Stop::Shape(text.len() as u64));
    };
    if rest.is_empty() {
        Ok(())
    } else {
        Err(Stop::Shape(rest.len() as u64))
    }
}

/// The logs that a text has, to its end.
fn logs_to_end(alloc: Global, text: &[u8], sizes: Sizes) -> Result<Transcript, Stop>
    ensures ok { IfOk result (λ r. AreReadLogs sizes text.now (logs_of r)) }
    ensures err { (left : ℕ) → result ≡ Err (stops.Shape left) → StopsBehindValues sizes text.now left }
{
    let (logs, rest) = match logs_first(alloc, text, sizes) {
        Ok(found) => found,
        Err(stop) => return Err(stop),
    };
    match end_of(rest) {
        Ok(()) => Ok(logs),
        Err(stop) => Err(stop),
    }
}

/// The values of so many editions that a text has in version 2, and its logs, to its end.
fn values_to_end(
    alloc: Global,
    text: &[u8],
    sizes: Sizes,
    has_values: bool,
    editions: u64,
) -> Result<(Option<Values>, Transcript), Stop>
    ensures ok { IfOk result (λ r. IsReadBehindEvents has_values editions sizes text.now r.0 (logs_of r.1)) }
    ensures err { (left : ℕ) → result ≡ Err (stops.Shape left) → StopsBehindEvents has_values editions sizes text.now left }
{
    if !has_values {
        return match logs_to_end(alloc, text, sizes) {
            Ok(logs) => Ok((None, logs)),
            Err(stop) => Err(stop),
        };
    }
    let (values, rest) = match values_first(alloc, text, editions) {
        Ok(found) => found,
        Err(stop) => return Err(stop),
    };
    match logs_to_end(alloc, rest, sizes) {
        Ok(logs) => Ok((Some(values), logs)),
        Err(stop) => Err(stop),
    }
}

/// What stands behind the beliefs of a plan file.
#[derive(Drop)]
pub(crate) struct Tail {
    pub events: Events,
    pub values: Option<Values>,
    pub transcript: Transcript,
}

/// The events, the values in version 2, and the logs that a text has, to its end.
pub(crate) fn events_to_end(
    alloc: Global,
    text: &[u8],
    sizes: Sizes,
    has_values: bool,
) -> Result<Tail, Stop>
    ensures ok { IfOk result (λ r. IsReadBehindMoves has_values sizes text.now (events_of r.events) r.values (logs_of r.transcript)) }
    ensures err { (left : ℕ) → result ≡ Err (stops.Shape left) → StopsBehindMoves has_values sizes text.now left }
{
    let (events, rest) = match events_first(alloc, text, sizes) {
        Ok(found) => found,
        Err(stop) => return Err(stop),
    };
    let editions = editions_of(events.as_slice());
    match values_to_end(alloc, rest, sizes, has_values, editions) {
        Ok((values, transcript)) => Ok(Tail {
            events,
            values,
            transcript,
        }),
        Err(stop) => Err(stop),
    }
}
