//! The sections of a plan file behind its beliefs.

ghost use Rattle.std.specs.Prelude.{◌≡◌, ◌≢◌, ℕ, suc, ◌++◌, ◌∷◌, List, codes, length, Err, IfOk, IsTrue};
ghost use Rattle.std.specs.List.{AllByRecursion};
ghost use Rattle.sp_value.specs.Events.{event_of, events_of};
ghost use Rattle.sp_lines.specs.Lines.{lines_of, IsSmall, EndsEarly, BeginsLine, BeginsLineOf};
ghost use Rattle.sp_planfile.specs.RunText.{event_line};
ghost use Rattle.sp_planfile.specs.PlanText.{count_line, value_line, events_section};
ghost use Rattle.sp_planfile.specs.Form.{IsTickValue, edition_count};
ghost use Rattle.sp_filed.specs.declared.stops.Stop.{Stop};
ghost use Rattle.sp_filed.specs.declared.stops.Stop.TheVariants as stops;
ghost use Rattle.sp_filed.specs.Sizes.{IsEventOf, is_plain};
ghost use Rattle.sp_filed.specs.Stops.{HasNoCount, StopsInEvents, StopsInValues};

use crate::events::event_at;
use crate::options::count_of;
use crate::sizes::Sizes;
use crate::stops::Stop;
use crate::values::value_at;
use sp_lines::first_line;
use sp_value::{Event, Events, Values};
use std::alloc::Global;

/// The count behind a word in the first line, and what stands behind that line.
pub(crate) fn count_first<'a>(text: &'a [u8], word: &[u8]) -> Result<(u64, &'a [u8]), Stop>
    requires { IsTrue (is_plain word.now) }
    ensures ok { IfOk result (λ r. IsSmall r.0 × (text.now ≡ count_line word.now r.0 ++ 10 ∷ r.1.now)) }
    ensures err { (left : ℕ) → result ≡ Err (stops.Shape left) → HasNoCount word.now text.now left }
{
    let stop = Stop::Shape(text.len() as u64);
    let Some((line, rest)) = first_line(text) else {
        return Err(stop);
    };
    match count_of(line, word) {
        Some(count) => Ok((count, rest)),
        None => Err(stop),
    }
}

/// The events that a text begins with, and what stands behind them.
pub(crate) fn events_first<'a>(
    alloc: Global,
    text: &'a [u8],
    sizes: Sizes,
) -> Result<(Events, &'a [u8]), Stop>
    ensures ok { IfOk result (λ r. (text.now ≡ events_section (events_of r.0) ++ r.1.now) × IsSmall (length (events_of r.0)) × AllByRecursion (IsEventOf sizes) (events_of r.0)) }
    ensures err { (left : ℕ) → result ≡ Err (stops.Shape left) → StopsInEvents sizes text.now left }
{
    let (count, rest) = match count_first(text, b"events") {
        Ok(found) => found,
        Err(stop) => return Err(stop),
    };
    match event_lines(alloc, rest, count, sizes) {
        Ok(found) => Ok(found),
        Err(stop) => Err(stop),
    }
}

/// So many events, and what stands behind them.
fn event_lines<'a>(
    alloc: Global,
    text: &'a [u8],
    count: u64,
    sizes: Sizes,
) -> Result<(Events, &'a [u8]), Stop>
    ensures ok { IfOk result (λ r. (text.now ≡ lines_of event_line (events_of r.0) ++ r.1.now) × (length (events_of r.0) ≡ count) × AllByRecursion (IsEventOf sizes) (events_of r.0)) }
    ensures err { (left : ℕ) → result ≡ Err (stops.Shape left) → EndsEarly event_line (IsEventOf sizes) count text.now left }
{
    let mut events = Events::new(alloc);
    let mut rest = text;
    for _ in 0..count {
        let Some((line, more)) = first_line(rest) else {
            return Err(Stop::Shape(rest.len() as u64));
        };
        let Some(event) = event_at(alloc, line, sizes)? else {
            return Err(Stop::Shape(rest.len() as u64));
        };
        events.push(event)?;
        rest = more;
    }
    Ok((events, rest))
}

/// The values of so many editions that a text begins with, and what stands behind them.
pub(crate) fn values_first<'a>(
    alloc: Global,
    text: &'a [u8],
    editions: u64,
) -> Result<(Values, &'a [u8]), Stop>
    ensures ok { IfOk result (λ r. (text.now ≡ count_line (codes "values") editions ++ 10 ∷ (lines_of value_line r.0 ++ r.1.now)) × (length r.0 ≡ editions) × AllByRecursion IsTickValue r.0) }
    ensures err { (left : ℕ) → result ≡ Err (stops.Shape left) → StopsInValues editions text.now left }
{
    let stop = Stop::Shape(text.len() as u64);
    let (count, rest) = match count_first(text, b"values") {
        Ok(found) => found,
        Err(stop) => return Err(stop),
    };
    if count != editions {
        return Err(stop);
    }
    match value_lines(alloc, rest, editions) {
        Ok(found) => Ok(found),
        Err(stop) => Err(stop),
    }
}

/// So many values, and what stands behind them.
fn value_lines<'a>(alloc: Global, text: &'a [u8], count: u64) -> Result<(Values, &'a [u8]), Stop>
    ensures ok { IfOk result (λ r. (text.now ≡ lines_of value_line r.0 ++ r.1.now) × (length r.0 ≡ count) × AllByRecursion IsTickValue r.0) }
    ensures err { (left : ℕ) → result ≡ Err (stops.Shape left) → EndsEarly value_line IsTickValue count text.now left }
{
    let mut values = Values::new(alloc);
    let mut rest = text;
    for _ in 0..count {
        let Some((line, more)) = first_line(rest) else {
            return Err(Stop::Shape(rest.len() as u64));
        };
        let Some(value) = value_at(alloc, line)? else {
            return Err(Stop::Shape(rest.len() as u64));
        };
        values.push(value)?;
        rest = more;
    }
    Ok((values, rest))
}

/// How many editions events make, with edition 0.
pub(crate) fn editions_of(events: &[Event]) -> u64
    ensures { result ≡ suc (edition_count (events_of events.now)) }
{
    let mut editions = 1;
    for event in events {
        match event {
            Event::Publish => editions += 1,
            Event::Prune { .. } => editions += 1,
            Event::Settle { .. } => {}
            Event::End => {}
        }
    }
    editions
}
