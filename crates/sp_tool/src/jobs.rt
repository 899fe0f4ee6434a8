//! The texts of jobs.

ghost use Rattle.std.specs.Prelude.{◌≡◌, ◌≤◌, [], ◌∷◌, map, IfOk, IfErr, MatchResult, Ok, Err};
ghost use Rattle.sp_outside.specs.Folder.{IsLaterFolder};
ghost use Rattle.sp_choose.specs.Machines.{uniform, sweep};
ghost use Rattle.sp_words.specs.Jobs.{IsPossible, ArePlanNumbers};
ghost use Rattle.sp_words.specs.declared.job.Job.TheVariants.{Plan, Check, Show, Gen, Trial, Help, Version};
ghost use Rattle.sp_tool.specs.Table.{Allows, IsPlain, IsTextFor};
ghost use Rattle.sp_tool.specs.Faults.{Hinders};

use crate::fault::Fault;
use crate::file::{file_model, model_in};
use crate::help::{help, version};
use crate::inputs::{PlanInputs, plan_inputs};
use crate::plans::{act_job, audit_job, migrate_job};
use crate::texts::{check_text, plan_text, show_text, trial_text};
use sp_choose::Chooser;
use sp_dd::NoMemory;
use sp_gen::generated;
use sp_outside::Store;
use sp_words::{Job, PlanWords};
use std::alloc::{AllocError, Global};

/// The text of a job that asks for no further threads.
pub fn text_for<S: Store>(
    alloc: Global,
    store: &mut S,
    job: &Job,
    choosers: Vec<Box<dyn Chooser + Send>>,
) -> Result<Vec<u8>, Fault>
    requires job { IsPossible job.now }
    requires plain { IsPlain job.now }
    requires choosers { map (λ b. machine b) choosers.items ≡ uniform ∷ sweep 0 ∷ [] }
    ensures text { IfOk result (λ t. IsTextFor (S.folder store.old) job.now t.items) }
    ensures fault { IfErr result (λ f. Hinders job.now (S.folder store.old) (S.folder store.new) f) }
    ensures later { IsLaterFolder (S.folder store.old) (S.folder store.new) }
{
    match job {
        Job::Plan(words) => plan_job(alloc, store, words, choosers),
        Job::Check { model } => check_job(alloc, store, model.as_str()),
        Job::Show { model } => show_job(alloc, store, model.as_str()),
        Job::Gen { number } => gen_job(alloc, *number),
        Job::Trial { number } => trial_job(alloc, *number, choosers),
        Job::Audit { plan } => audit_job(alloc, store, plan.as_str()),
        Job::Migrate { plan } => migrate_job(alloc, store, plan.as_str()),
        Job::Act { plan, script } => act_job(alloc, store, plan.as_str(), script.as_str()),
        Job::Help => help_job(alloc),
        Job::Version => version_job(alloc),
    }
}

/// The text of a plan on no further threads.
fn plan_job<S: Store>(
    alloc: Global,
    store: &mut S,
    words: &PlanWords,
    choosers: Vec<Box<dyn Chooser + Send>>,
) -> Result<Vec<u8>, Fault>
    requires words { ArePlanNumbers words.now }
    requires alone { words.now.workers ≡ 0 }
    requires choosers { map (λ b. machine b) choosers.items ≡ uniform ∷ sweep 0 ∷ [] }
    ensures text { IfOk result (λ t. IsTextFor (S.folder store.old) (Plan words.now) t.items) }
    ensures fault { IfErr result (λ f. Hinders (Plan words.now) (S.folder store.old) (S.folder store.new) f) }
    ensures later { IsLaterFolder (S.folder store.old) (S.folder store.new) }
{
    let PlanInputs { model, commands } = match plan_inputs(alloc, store, words) {
        Ok(inputs) => inputs,
        Err(fault) => return Err(fault),
    };
    let text = plan_text(alloc, model, words, choosers, commands)?;
    Ok(text)
}

/// The text of a check.
fn check_job<S: Store>(alloc: Global, store: &mut S, file: &str) -> Result<Vec<u8>, Fault>
    ensures text { IfOk result (λ t. IsTextFor (S.folder store.old) (Check file.now) t.items) }
    ensures fault { IfErr result (λ f. Hinders (Check file.now) (S.folder store.old) (S.folder store.new) f) }
    ensures later { IsLaterFolder (S.folder store.old) (S.folder store.new) }
{
    match file_model(alloc, store, file) {
        Ok(model) => or_no_memory(check_text(alloc, &model)),
        Err(fault) => Err(fault),
    }
}

/// The canonical text of a model.
fn show_job<S: Store>(alloc: Global, store: &mut S, file: &str) -> Result<Vec<u8>, Fault>
    ensures text { IfOk result (λ t. IsTextFor (S.folder store.old) (Show file.now) t.items) }
    ensures fault { IfErr result (λ f. Hinders (Show file.now) (S.folder store.old) (S.folder store.new) f) }
    ensures later { IsLaterFolder (S.folder store.old) (S.folder store.new) }
{
    match file_model(alloc, store, file) {
        Ok(model) => or_no_memory(show_text(alloc, &model)),
        Err(fault) => Err(fault),
    }
}

/// A text, or want of memory as the call has it.
fn or_no_memory(text: Result<Vec<u8>, NoMemory>) -> Result<Vec<u8>, Fault>
    ensures { MatchResult text (λ t. result ≡ Ok t) (λ _. result ≡ Err Fault.NoMemory) }
{
    match text {
        Ok(text) => Ok(text),
        Err(_) => Err(Fault::NoMemory),
    }
}

/// The text of a generated model.
fn gen_job(alloc: Global, number: u64) -> Result<Vec<u8>, Fault>
    requires { number ≤ 16 }
    ensures text { IfOk result (λ t. Allows (Gen number) [] t.items) }
    ensures fault { IfErr result (λ f. f ≡ Fault.NoMemory) }
{
    let text = generated(alloc, number)?;
    Ok(text.into_bytes())
}

/// The text of a trial.
fn trial_job(
    alloc: Global,
    number: u64,
    choosers: Vec<Box<dyn Chooser + Send>>,
) -> Result<Vec<u8>, Fault>
    requires number { number ≤ 16 }
    requires choosers { map (λ b. machine b) choosers.items ≡ uniform ∷ sweep 0 ∷ [] }
    ensures text { IfOk result (λ t. Allows (Trial number) [] t.items) }
    ensures fault { IfErr result (λ f. f ≡ Fault.NoMemory) }
{
    let source = generated(alloc, number)?;
    let model = match model_in(alloc, "generated", source.as_bytes()) {
        Ok(model) => model,
        Err(fault) => return Err(fault),
    };
    let text = trial_text(alloc, model, number, choosers)?;
    Ok(text)
}

/// The text of the help.
fn help_job(alloc: Global) -> Result<Vec<u8>, Fault>
    ensures text { IfOk result (λ t. Allows Help [] t.items) }
    ensures fault { IfErr result (λ f. f ≡ Fault.NoMemory) }
{
    let text = copied(alloc, help())?;
    Ok(text)
}

/// The text of the version.
fn version_job(alloc: Global) -> Result<Vec<u8>, Fault>
    ensures text { IfOk result (λ t. Allows Version [] t.items) }
    ensures fault { IfErr result (λ f. f ≡ Fault.NoMemory) }
{
    let text = copied(alloc, version())?;
    Ok(text)
}

/// These bytes, as the text of a job.
fn copied(alloc: Global, bytes: &[u8]) -> Result<Vec<u8>, AllocError>
    ensures { IfOk result (λ text. text.items ≡ bytes.now) }
{
    let mut text = Vec::new(alloc);
    text.extend_from_slice(bytes)?;
    Ok(text)
}
