//! The numbers of events are of 64 bits, as those who read them know.

ghost use Rattle.std.specs.List.{AllByRecursion};
ghost use Rattle.sp_lines.specs.Lines.{IsSmall, IsSmallPair};
ghost use Rattle.sp_value.specs.Events.{event_of, events_of};
ghost use Rattle.sp_planfile.specs.RunText.{FitInWords, HasSmall};

use sp_dd::Pairs;
use sp_value::Event;

/// Reads events, and does nothing with them.
pub(crate) fn read_numbers(events: &[Event])
    ensures { FitInWords (events_of events.now) }
{
    for event in events {
        read_event(event);
    }
}

/// Reads an event.
fn read_event(event: &Event)
    ensures { HasSmall (event_of event.now) }
{
    match *event {
        Event::Settle {
            belief,
            base,
            action,
            ref links,
        } => {
            read_list(&[belief, base, action]);
            read_list(links.as_slice());
        }
        Event::Prune { ref pairs } => read_pairs(pairs),
        Event::Publish | Event::End => {}
    }
}

/// Reads numbers.
pub(crate) fn read_list(_numbers: &[u64])
    ensures { AllByRecursion IsSmall _numbers.now }
{}

/// Reads pairs.
fn read_pairs(pairs: &Pairs)
    ensures { AllByRecursion IsSmallPair pairs.now }
{
    for place in 0..pairs.len() {
        let (first, second) = *pairs.at(place);
        read_list(&[first, second]);
    }
}
