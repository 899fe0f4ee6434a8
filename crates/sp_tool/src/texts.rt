//! What the commands write.

ghost use Rattle.std.specs.Prelude.{◌≡◌, ◌≤◌, ◌∷◌, [], All, IfOk, string_bytes, map};
ghost use Rattle.sp_theory.specs.Points.{count_of};
ghost use Rattle.sp_model.specs.Problem.{sizes_of};
ghost use Rattle.sp_script.specs.Laws.{IsObservationWithin};
ghost use Rattle.sp_choose.specs.Machines.{uniform, sweep};
ghost use Rattle.sp_words.specs.declared.job.PlanWords.{PlanWords};
ghost use Rattle.sp_words.specs.Jobs.{ArePlanNumbers};
ghost use Rattle.sp_tool.specs.Texts.{check_line, counts_text, range_text, options_of, chooser_of, trial_lines, trial_front, trial_back, IsShownText, IsPlanText, IsTrialText};

use crate::fault::Fault;
use sp_choose::Chooser;
use sp_dd::NoMemory;
use sp_model::Model;
use sp_planner::{Summary, summarize};
use sp_planning::script_file;
use sp_read_back::{canonical_text, functions_law};
use sp_script::Commands;
use sp_show::decimal;
use sp_value::{Explore, Options};
use sp_words::PlanWords;
use std::alloc::{AllocError, Global};

/// The numbers of a model.
pub fn check_text(alloc: Global, model: &Model) -> Result<Vec<u8>, NoMemory>
    ensures { IfOk result (λ text. text.items ≡ check_line model.now) }
{
    let mut text = counts_text(
        alloc,
        model.variable_count(),
        model.state_count(),
        model.joint_count(),
        model.action_count(),
    )?;
    let range = range_text(alloc, model.least_return(), model.tick_bound())?;
    text.push_str(range.as_str())?;
    Ok(text.into_bytes())
}

/// How many variables, states, joint observations and actions there are.
fn counts_text(
    alloc: Global,
    variables: u64,
    states: u64,
    observations: u64,
    actions: u64,
) -> Result<String, AllocError>
    ensures { IfOk result (λ text. string_bytes text ≡ counts_text variables states observations actions) }
{
    format!(in alloc;
        "ok variables {variables} states {states} observations {observations} actions {actions}"
    )
}

/// The least return and the most ticks that a backup may lose.
fn range_text(alloc: Global, least: i128, units: u64) -> Result<String, NoMemory>
    ensures { IfOk result (λ text. string_bytes text ≡ range_text least units) }
{
    let least = decimal(alloc, least)?;
    let text = format!(in alloc; " least {least} units {units}\n")?;
    Ok(text)
}

/// The canonical text of a model.
pub fn show_text(alloc: Global, model: &Model) -> Result<Vec<u8>, NoMemory>
    ensures { IfOk result (λ text. IsShownText model.now text.items) }
{
    canonical_text(alloc, model)
}

/// The plan file of the plan that words ask for on no further threads, with the logs of these commands, which are served while it is made.
pub fn plan_text(
    alloc: Global,
    model: Model,
    words: &PlanWords,
    choosers: Vec<Box<dyn Chooser + Send>>,
    commands: Commands,
) -> Result<Vec<u8>, NoMemory>
    requires words { ArePlanNumbers words.now }
    requires alone { words.now.workers ≡ 0 }
    requires commands { All (IsObservationWithin (count_of (sizes_of model.sights))) commands }
    requires choosers { map (λ b. machine b) choosers.items ≡ uniform ∷ sweep 0 ∷ [] }
    ensures { IfOk result (λ text. IsPlanText model words.now commands text.items) }
{
    // what is known of the model and of its functions, and below of the length of the text
    functions_law(model.parts());
    let chooser = picked(choosers, words.sweep);
    let text = script_file(alloc, model, options(words), chooser, commands)?;
    let _ = text.len();
    Ok(text)
}

/// The options that words ask for.
pub fn options(words: &PlanWords) -> Options
    ensures { result ≡ options_of words.now }
{
    Options {
        beliefs: words.beliefs,
        depth: words.depth,
        stages: words.stages,
        seed: words.seed,
        explore: if words.sweep {
            Explore::Sweep
        } else {
            Explore::Uniform
        },
        prune: words.prune,
    }
}

/// The chooser that words ask for; the other one is dropped.
pub fn picked(choosers: Vec<Box<dyn Chooser + Send>>, by_turns: bool) -> Box<dyn Chooser + Send>
    requires { map (λ b. machine b) choosers.items ≡ uniform ∷ sweep 0 ∷ [] }
    ensures { machine result ≡ chooser_of by_turns }
{
    let mut choosers = choosers;
    if by_turns {
        choosers.swap_remove(1)
    } else {
        choosers.swap_remove(0)
    }
}

/// The summary of a trial.
pub fn trial_text(
    alloc: Global,
    model: Model,
    number: u64,
    choosers: Vec<Box<dyn Chooser + Send>>,
) -> Result<Vec<u8>, NoMemory>
    requires choosers { map (λ b. machine b) choosers.items ≡ uniform ∷ sweep 0 ∷ [] }
    ensures { IfOk result (λ text. IsTrialText model number text.items) }
{
    let states = model.state_count();
    let options = Options {
        beliefs: 100,
        depth: 10,
        stages: 5,
        seed: number,
        explore: Explore::Uniform,
        prune: false,
    };
    let chooser = picked(choosers, false);
    let summary = summarize(alloc, model, options, chooser)?;
    let text = trial_summary(alloc, number, states, &summary)?;
    Ok(text)
}

/// The lines of a trial.
fn trial_summary(
    alloc: Global,
    number: u64,
    states: u64,
    summary: &Summary,
) -> Result<Vec<u8>, NoMemory>
    ensures { IfOk result (λ text. text.items ≡ trial_lines number states summary.now) }
{
    let mut text = trial_front(alloc, number, states, summary.records)?;
    let back = trial_back(alloc, summary.editions, summary.members, summary.value)?;
    text.push_str(back.as_str())?;
    Ok(text.into_bytes())
}

/// The lines of a trial up to its records.
fn trial_front(alloc: Global, number: u64, states: u64, records: u64) -> Result<String, AllocError>
    ensures { IfOk result (λ text. string_bytes text ≡ trial_front number states records) }
{
    format!(in alloc; "trial {number}\nstates {states}\nbeliefs 100\nstages 5\nrecords {records}")
}

/// The lines of a trial behind its records.
fn trial_back(alloc: Global, editions: u64, members: u64, value: i128) -> Result<String, NoMemory>
    ensures { IfOk result (λ text. string_bytes text ≡ trial_back editions members value) }
{
    let value = decimal(alloc, value)?;
    let text = format!(in alloc; "\neditions {editions}\nmembers {members}\nvalue {value}\n")?;
    Ok(text)
}
