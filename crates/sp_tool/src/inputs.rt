//! What a plan is made of.

ghost use Rattle.std.specs.Prelude.{◌≡◌, All, IfOk, IfErr, Some, None};
ghost use Rattle.sp_theory.specs.Points.{count_of};
ghost use Rattle.sp_model.specs.Problem.{sizes_of};
ghost use Rattle.sp_outside.specs.Folder.{IsLaterFolder};
ghost use Rattle.sp_script.specs.Laws.{IsObservationWithin};
ghost use Rattle.sp_words.specs.declared.job.Job.TheVariants.{Plan};
ghost use Rattle.sp_tool.specs.Table.{AreInputs};
ghost use Rattle.sp_tool.specs.Faults.{Hinders};

use crate::fault::Fault;
use crate::file::file_model;
use crate::scripts::file_script;
use sp_model::Model;
use sp_outside::Store;
use sp_script::Commands;
use sp_words::PlanWords;
use std::alloc::Global;

/// A model, and the commands of the sessions that act while it is planned for.
#[derive(Drop)]
pub struct PlanInputs {
    pub model: Model,
    pub commands: Commands,
}

/// What the files of a plan tell: its model, and the commands of its script, which are none where the words name no script.
pub fn plan_inputs<S: Store>(
    alloc: Global,
    store: &mut S,
    words: &PlanWords,
) -> Result<PlanInputs, Fault>
    ensures inputs { IfOk result (λ i. AreInputs (S.folder store.old) words.now i.model i.commands) }
    ensures within { IfOk result (λ i. All (IsObservationWithin (count_of (sizes_of i.model.sights))) i.commands) }
    ensures fault { IfErr result (λ f. Hinders (Plan words.now) (S.folder store.old) (S.folder store.new) f) }
    ensures later { IsLaterFolder (S.folder store.old) (S.folder store.new) }
{
    match &words.sessions {
        None => alone(alloc, store, words),
        Some(script) => with_script(alloc, store, words, script.as_str()),
    }
}

/// What the model file of a plan without sessions tells.
fn alone<S: Store>(alloc: Global, store: &mut S, words: &PlanWords) -> Result<PlanInputs, Fault>
    requires { words.now.sessions ≡ None }
    ensures inputs { IfOk result (λ i. AreInputs (S.folder store.old) words.now i.model i.commands) }
    ensures within { IfOk result (λ i. All (IsObservationWithin (count_of (sizes_of i.model.sights))) i.commands) }
    ensures fault { IfErr result (λ f. Hinders (Plan words.now) (S.folder store.old) (S.folder store.new) f) }
    ensures later { IsLaterFolder (S.folder store.old) (S.folder store.new) }
{
    match file_model(alloc, store, words.model.as_str()) {
        Ok(model) => Ok(PlanInputs {
            model,
            commands: Commands::new(alloc),
        }),
        Err(fault) => Err(fault),
    }
}

/// What the model file and the script of a plan tell.
fn with_script<S: Store>(
    alloc: Global,
    store: &mut S,
    words: &PlanWords,
    script: &str,
) -> Result<PlanInputs, Fault>
    requires { words.now.sessions ≡ Some script.now }
    ensures inputs { IfOk result (λ i. AreInputs (S.folder store.old) words.now i.model i.commands) }
    ensures within { IfOk result (λ i. All (IsObservationWithin (count_of (sizes_of i.model.sights))) i.commands) }
    ensures fault { IfErr result (λ f. Hinders (Plan words.now) (S.folder store.old) (S.folder store.new) f) }
    ensures later { IsLaterFolder (S.folder store.old) (S.folder store.new) }
{
    let model = match file_model(alloc, store, words.model.as_str()) {
        Ok(model) => model,
        Err(fault) => return Err(fault),
    };
    match file_script(alloc, store, script, &model) {
        Ok(commands) => Ok(PlanInputs { model, commands }),
        Err(fault) => Err(fault),
    }
}
