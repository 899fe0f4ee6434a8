//! The text of a plan file.

ghost use Rattle.std.specs.Prelude.{◌≡◌, ◌++◌, ◌∷◌, [], None, Some, Option, IfOk, OnOk, option_copied, codes, is_some};
ghost use Rattle.std.specs.Arc.{arc_value};
ghost use Rattle.sp_lines.specs.Lines.{lines_of};
ghost use Rattle.sp_planfile.specs.Contents.{contents_of, move_of, moves_of};
ghost use Rattle.sp_planfile.specs.PlanText.{plan_text, options_line, belief_line, count_line, head_text};
ghost use Rattle.sp_planfile.specs.PlanText as words;

use crate::events::put_events;
use crate::logs::put_logs;
use crate::values::put_values;
use sp_dd::NoMemory;
use sp_lines::{put, put_number, put_numbers};
use sp_model::Sample;
use sp_session::Transcript;
use sp_value::{Explore, Options, Run, Values};
use std::alloc::Global;

/// The text of a run with its transcript, where these are the lines of its model, each with its end. It is of version 2 where there are
/// values: of each edition at belief 0, in ticks of 10^-9.
pub fn text_with_model(
    alloc: Global,
    model: &[u8],
    run: &Run,
    values: Option<&Values>,
    transcript: &Transcript,
) -> Result<Vec<u8>, NoMemory>
    ensures { IfOk result (λ text. text.items ≡ plan_text (contents_of model.now (arc_value run.now.task) run.now.events (option_copied values.entry) transcript.now)) }
{
    let mut text = Vec::new(alloc);
    put_model(&mut text, values.is_some(), model)?;
    put_options(&mut text, run.task.options())?;
    put_moves(&mut text, run.task.samples().list.as_slice())?;
    put_events(&mut text, run.events.as_slice())?;
    put_values(alloc, &mut text, values)?;
    put_logs(&mut text, transcript.as_slice())?;
    put(&mut text, b"done\n")?;
    Ok(text)
}

/// Adds the lines of version and model.
fn put_model(text: &mut Vec<u8>, has_values: bool, model: &[u8]) -> Result<(), NoMemory>
    ensures { OnOk result (text.new.items ≡ text.old.items ++ (head_text has_values ++ (model.now ++ codes "endmodel\n"))) }
{
    put_head(text, has_values)?;
    put(text, model)?;
    put(text, b"endmodel\n")
}

/// Adds what stands before the lines of the model.
fn put_head(text: &mut Vec<u8>, has_values: bool) -> Result<(), NoMemory>
    ensures { OnOk result (text.new.items ≡ text.old.items ++ head_text has_values) }
{
    if has_values {
        put(text, b"perseus-plan 2\nmodel\n")
    } else {
        put(text, b"perseus-plan 1\nmodel\n")
    }
}

/// Adds the line of the options.
fn put_options(text: &mut Vec<u8>, options: &Options) -> Result<(), NoMemory>
    ensures { OnOk result (text.new.items ≡ text.old.items ++ (options_line options.now ++ 10 ∷ [])) }
{
    put(text, b"options")?;
    put_numbers(
        text,
        &[options.beliefs, options.depth, options.stages, options.seed],
    )?;
    put(text, explore_word(options.explore))?;
    put(text, prune_word(options.prune))?;
    put(text, b"\n")
}

/// How actions are chosen, behind a space.
fn explore_word(explore: Explore) -> &'static [u8]
    ensures { result.now ≡ words.explore_word explore }
{
    match explore {
        Explore::Uniform => b" uniform",
        Explore::Sweep => b" sweep",
    }
}

/// Whether there is pruning, behind a space.
fn prune_word(prune: bool) -> &'static [u8]
    ensures { result.now ≡ words.prune_word prune }
{
    if prune { b" yes" } else { b" no" }
}

/// Adds the lines of the beliefs from 1 on.
fn put_moves(text: &mut Vec<u8>, samples: &[Sample]) -> Result<(), NoMemory>
    ensures { OnOk result (text.new.items ≡ text.old.items ++ lines_of belief_line (moves_of samples.now)) }
{
    for place in 1..samples.len() {
        let sample = &samples[place];
        put(text, b"belief")?;
        put_numbers(text, &[sample.action, sample.observation])?;
        put(text, b"\n")?;
    }
    Ok(())
}

/// Adds a line that counts what follows.
pub(crate) fn put_count(text: &mut Vec<u8>, word: &[u8], count: usize) -> Result<(), NoMemory>
    ensures { OnOk result (text.new.items ≡ text.old.items ++ (count_line word.now count ++ 10 ∷ [])) }
{
    put(text, word)?;
    put(text, b" ")?;
    put_number(text, count as u64)?;
    put(text, b"\n")
}
