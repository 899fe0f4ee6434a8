//! The top call on several threads.

ghost use Rattle.std.specs.Prelude.{◌≡◌, ◌<◌, [], ◌∷◌, All, IfOk, IfErr, MatchOption, map, string_bytes};
ghost use Rattle.sp_theory.specs.Points.{count_of};
ghost use Rattle.sp_model.specs.Problem.{sizes_of};
ghost use Rattle.sp_outside.specs.Folder.{IsLaterFolder};
ghost use Rattle.sp_choose.specs.Machines.{uniform, sweep};
ghost use Rattle.sp_script.specs.Laws.{IsObservationWithin};
ghost use Rattle.sp_words.specs.declared.job.Job.TheVariants.{Plan};
ghost use Rattle.sp_words.specs.Jobs.{ArePlanNumbers};
ghost use Rattle.sp_tool.specs.Table.{Answers, Call, IsConcurrentPlan, IsPlain, IsTextFor};
ghost use Rattle.sp_tool.specs.Texts.{IsPlanText};
ghost use Rattle.sp_tool.specs.Faults.{Hinders};

use crate::fault::Fault;
use crate::inputs::{PlanInputs, plan_inputs};
use crate::run::{ended, run_plain, written};
use crate::status::Status;
use crate::texts::{options, picked};
use sp_choose::Chooser;
use sp_concurrent::{FreeGate, Gate, concurrent_file};
use sp_dd::NoMemory;
use sp_model::Model;
use sp_outside::{Sink, Store};
use sp_read_back::functions_law;
use sp_script::Commands;
use sp_words::{Job, PlanWords, WordsError, read_words};
use std::alloc::Global;
use std::sync::Wait;
use std::thread::Threads;

/// Runs one command, as `run_plain` does; a plan that asks for further threads is made by them. May wait.
pub fn run_tool<R: Threads + Wait + Sync, S: Store, K: Sink, E: Sink>(
    rt: &R,
    alloc: Global,
    words: &[String],
    choosers: Vec<Box<dyn Chooser + Send>>,
    store: &mut S,
    out: &mut K,
    err: &mut E,
) -> Status
    requires { map (λ b. machine b) choosers.items ≡ uniform ∷ sweep 0 ∷ [] }
    ensures { let call : Call = record {
      words = map string_bytes words.now;
      store = S.folder store.old;
      later = S.folder store.new;
      out = K.written out.old;
      end = K.written out.new;
    } in Answers call (E.written err.old) (E.written err.new) result }
{
    run_gated(rt, alloc, &FreeGate, words, choosers, store, out, err)
}

/// The same, with a gate that may hold back planners: each of them before a backup, and whoever serves a session after a step.
pub fn run_gated<R: Threads + Wait + Sync, G: Gate + Sync, S: Store, K: Sink, E: Sink>(
    rt: &R,
    alloc: Global,
    gate: &G,
    words: &[String],
    choosers: Vec<Box<dyn Chooser + Send>>,
    store: &mut S,
    out: &mut K,
    err: &mut E,
) -> Status
    requires { map (λ b. machine b) choosers.items ≡ uniform ∷ sweep 0 ∷ [] }
    ensures { let call : Call = record {
      words = map string_bytes words.now;
      store = S.folder store.old;
      later = S.folder store.new;
      out = K.written out.old;
      end = K.written out.new;
    } in Answers call (E.written err.old) (E.written err.new) result }
{
    match concurrent_plan(alloc, words) {
        Ok(Some(plan)) => {
            let text = concurrent_job(rt, alloc, gate, store, &plan, choosers);
            ended(written(text, out), err)
        }
        Ok(None) => run_plain(alloc, words, choosers, store, out, err),
        Err(_) => ended(Err(Fault::NoMemory), err),
    }
}

/// The plan on further threads that words ask for, if they ask for one.
fn concurrent_plan(alloc: Global, words: &[String]) -> Result<Option<PlanWords>, NoMemory>
    ensures { IfOk result (IsConcurrentPlan (map string_bytes words.now)) }
{
    match read_words(alloc, words) {
        Ok(job) => Ok(concurrent_words(job)),
        Err(WordsError::Usage) => Ok(None),
        Err(WordsError::NoMemory) => Err(NoMemory),
    }
}

/// What a plan is asked for, if the job is one on further threads.
fn concurrent_words(job: Job) -> Option<PlanWords>
    ensures { MatchOption result (IsPlain job) (λ p. (job ≡ Plan p) × (0 < p.workers)) }
{
    match job {
        Job::Plan(plan) => { if plan.workers > 0 { Some(plan) } else { None } }
        Job::Check { .. } => None,
        Job::Show { .. } => None,
        Job::Gen { .. } => None,
        Job::Trial { .. } => None,
        Job::Audit { .. } => None,
        Job::Migrate { .. } => None,
        Job::Act { .. } => None,
        Job::Help => None,
        Job::Version => None,
    }
}

/// The text of a plan on further threads.
fn concurrent_job<R: Threads + Wait + Sync, G: Gate + Sync, S: Store>(
    rt: &R,
    alloc: Global,
    gate: &G,
    store: &mut S,
    words: &PlanWords,
    choosers: Vec<Box<dyn Chooser + Send>>,
) -> Result<Vec<u8>, Fault>
    requires words { ArePlanNumbers words.now }
    requires workers { 0 < words.now.workers }
    requires choosers { map (λ b. machine b) choosers.items ≡ uniform ∷ sweep 0 ∷ [] }
    ensures text { IfOk result (λ t. IsTextFor (S.folder store.old) (Plan words.now) t.items) }
    ensures fault { IfErr result (λ f. Hinders (Plan words.now) (S.folder store.old) (S.folder store.new) f) }
    ensures later { IsLaterFolder (S.folder store.old) (S.folder store.new) }
{
    let PlanInputs { model, commands } = match plan_inputs(alloc, store, words) {
        Ok(inputs) => inputs,
        Err(fault) => return Err(fault),
    };
    let text = concurrent_text(rt, alloc, gate, model, words, choosers, commands)?;
    Ok(text)
}

/// The plan file of the plan that words ask for on further threads, with the logs of these commands, which are served meanwhile.
fn concurrent_text<R: Threads + Wait + Sync, G: Gate + Sync>(
    rt: &R,
    alloc: Global,
    gate: &G,
    model: Model,
    words: &PlanWords,
    choosers: Vec<Box<dyn Chooser + Send>>,
    commands: Commands,
) -> Result<Vec<u8>, NoMemory>
    requires words { ArePlanNumbers words.now }
    requires workers { 0 < words.now.workers }
    requires commands { All (IsObservationWithin (count_of (sizes_of model.sights))) commands }
    requires choosers { map (λ b. machine b) choosers.items ≡ uniform ∷ sweep 0 ∷ [] }
    ensures { IfOk result (λ text. IsPlanText model words.now commands text.items) }
{
    // what is known of the model and of its functions, and below of the length of the text
    functions_law(model.parts());
    let chooser = picked(choosers, words.sweep);
    let text = concurrent_file(
        rt,
        alloc,
        model,
        options(words),
        chooser,
        commands,
        words.workers,
        gate,
    )?;
    let _ = text.len();
    Ok(text)
}
