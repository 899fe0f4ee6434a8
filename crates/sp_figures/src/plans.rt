//! Plans of one thread.

ghost use Rattle.std.specs.Prelude.{IsTrue};
ghost use Rattle.sp_planner.specs.Planned.{AreOptions};

use crate::numbers::{number_at, push_numbers, push_pairs};
use crate::stopped::Stopped;
use sp_choose::{Chooser, Sweep, Uniform};
use sp_model::Model;
use sp_planner::{Summary, plan, summarize};
use sp_value::{Event, Explore, Options, Run};
use std::alloc::Global;

/// The options of a line: beliefs, depth, stages, seed, 1 to explore in turn, 1 to prune.
pub fn options_of(numbers: &[u64]) -> Result<Options, Stopped> {
    Ok(Options {
        beliefs: number_at(numbers, 0)?,
        depth: number_at(numbers, 1)?,
        stages: number_at(numbers, 2)?,
        seed: number_at(numbers, 3)?,
        explore: explore_of(number_at(numbers, 4)?),
        prune: number_at(numbers, 5)? == 1,
    })
}

/// The way of exploring of a number.
fn explore_of(number: u64) -> Explore {
    if number == 1 {
        Explore::Sweep
    } else {
        Explore::Uniform
    }
}

/// Whether a plan can be asked for these options.
fn are_options(options: &Options) -> bool
    ensures { IsTrue result → AreOptions options.now }
{
    1 <= options.beliefs
        && options.beliefs <= 4096
        && 1 <= options.depth
        && options.depth <= 4096
        && 1 <= options.stages
        && options.stages <= 1000
}

/// The run of one thread, with a chooser.
fn planned(
    alloc: Global,
    model: Model,
    options: Options,
    chooser: Box<dyn Chooser + Send>,
) -> Result<Run, Stopped> {
    if !are_options(&options) {
        return Err(Stopped);
    }
    Ok(plan(alloc, model, options, chooser)?)
}

/// The run of one thread.
pub fn run_of(alloc: Global, model: Model, options: Options) -> Result<Run, Stopped> {
    match options.explore {
        Explore::Sweep => planned(alloc, model, options, Box::new(alloc, Sweep::new())?),
        Explore::Uniform => planned(alloc, model, options, Box::new(alloc, Uniform)?),
    }
}

/// The numbers of the run of one thread, with a chooser.
fn summed(
    alloc: Global,
    model: Model,
    options: Options,
    chooser: Box<dyn Chooser + Send>,
) -> Result<Summary, Stopped> {
    if !are_options(&options) {
        return Err(Stopped);
    }
    Ok(summarize(alloc, model, options, chooser)?)
}

/// The numbers of the run of one thread.
fn summary_of(alloc: Global, model: Model, options: Options) -> Result<Summary, Stopped> {
    match options.explore {
        Explore::Sweep => summed(alloc, model, options, Box::new(alloc, Sweep::new())?),
        Explore::Uniform => summed(alloc, model, options, Box::new(alloc, Uniform)?),
    }
}

/// Adds how many records and editions the run of one thread has, how many members its last edition, and that one's value at the
/// initial belief.
pub fn push_summary(
    text: &mut String,
    alloc: Global,
    model: Model,
    options: Options,
) -> Result<(), Stopped> {
    let found = summary_of(alloc, model, options)?;
    let (records, editions, members, value) = (
        found.records,
        found.editions,
        found.members,
        found.value,
    );
    Ok(writeln!(
        text,
        "records {records} editions {editions} members {members} value {value}"
    )?)
}

/// Adds the events of the run of one thread.
pub fn push_plan(
    text: &mut String,
    alloc: Global,
    model: Model,
    options: Options,
) -> Result<(), Stopped> {
    let run = run_of(alloc, model, options)?;
    push_events(text, run.events.as_slice())
}

/// Adds a line for each event.
pub fn push_events(text: &mut String, events: &[Event]) -> Result<(), Stopped> {
    for event in events {
        push_event(text, event)?;
    }
    Ok(())
}

/// Adds the line of an event.
fn push_event(text: &mut String, event: &Event) -> Result<(), Stopped> {
    match event {
        Event::Settle {
            belief,
            base,
            action,
            links,
        } => {
            write!(text, "settle {belief} {base} {action}")?;
            push_numbers(text, links.as_slice())?;
            Ok(text.push_str("\n")?)
        }
        Event::Publish => Ok(text.push_str("publish\n")?),
        Event::Prune { pairs } => {
            text.push_str("prune")?;
            push_pairs(text, pairs)
        }
        Event::End => Ok(text.push_str("end\n")?),
    }
}
