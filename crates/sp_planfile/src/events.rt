//! The lines of events.

ghost use Rattle.std.specs.Prelude.{◌≡◌, ◌++◌, ◌∷◌, [], OnOk, codes, length};
ghost use Rattle.sp_lines.specs.Lines.{spaced_pairs, lines_of};
ghost use Rattle.sp_value.specs.Events.{event_of, events_of};
ghost use Rattle.sp_planfile.specs.RunText.{event_line};
ghost use Rattle.sp_planfile.specs.PlanText.{events_section};

use crate::writing::put_count;
use sp_dd::{NoMemory, Pairs};
use sp_lines::{put, put_numbers};
use sp_value::Event;

/// Adds the lines of events, with their count.
pub(crate) fn put_events(text: &mut Vec<u8>, events: &[Event]) -> Result<(), NoMemory>
    ensures { OnOk result (text.new.items ≡ text.old.items ++ events_section (events_of events.now)) }
{
    put_count(text, b"events", events.len())?;
    put_event_lines(text, events)
}

/// Adds the lines of events.
fn put_event_lines(text: &mut Vec<u8>, events: &[Event]) -> Result<(), NoMemory>
    ensures { OnOk result (text.new.items ≡ text.old.items ++ lines_of event_line (events_of events.now)) }
{
    for event in events {
        put_event(text, event)?;
    }
    Ok(())
}

/// Adds the line of an event.
fn put_event(text: &mut Vec<u8>, event: &Event) -> Result<(), NoMemory>
    ensures { OnOk result (text.new.items ≡ text.old.items ++ (event_line (event_of event.now) ++ 10 ∷ [])) }
{
    match *event {
        Event::Settle {
            belief,
            base,
            action,
            ref links,
        } => {
            put(text, b"settle")?;
            put_numbers(text, &[belief, base, action])?;
            put_numbers(text, links.as_slice())?;
            put(text, b"\n")
        }
        Event::Publish => put(text, b"publish\n"),
        Event::Prune { ref pairs } => {
            put(text, b"prune")?;
            put_pairs(text, pairs)?;
            put(text, b"\n")
        }
        Event::End => put(text, b"end\n"),
    }
}

/// Adds the numbers of pairs, each behind a space.
fn put_pairs(text: &mut Vec<u8>, pairs: &Pairs) -> Result<(), NoMemory>
    ensures { OnOk result (text.new.items ≡ text.old.items ++ spaced_pairs pairs.now) }
{
    for place in 0..pairs.len() {
        let (first, second) = *pairs.at(place);
        put_numbers(text, &[first, second])?;
    }
    Ok(())
}
