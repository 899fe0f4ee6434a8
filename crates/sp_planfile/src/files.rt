//! Plan files of both versions.

ghost use Rattle.std.specs.Prelude.{◌≡◌, None, Some, IfOk};
ghost use Rattle.std.specs.Arc.{arc_value};
ghost use Rattle.sp_planfile.specs.Contents.{contents_of};
ghost use Rattle.sp_planfile.specs.ModelText.{model_bytes};
ghost use Rattle.sp_planfile.specs.PlanText as texts;

use crate::writing::text_with_model;
use sp_canonical::model_text;
use sp_dd::NoMemory;
use sp_session::Transcript;
use sp_value::{Run, Values};
use std::alloc::Global;

/// The plan file of version 1 of a run with its transcript.
pub fn plan_text(alloc: Global, run: &Run, transcript: &Transcript) -> Result<Vec<u8>, NoMemory>
    ensures { let t = arc_value run.now.task in IfOk result (λ text. text.items ≡ texts.plan_text (contents_of (model_bytes t.model) t run.now.events None transcript.now)) }
{
    let model = model_text(alloc, run.task.model())?;
    text_with_model(alloc, model.as_slice(), run, None, transcript)
}

/// The plan file of version 2 of a run with its transcript, and the value of each edition at belief 0 in ticks of 10^-9.
pub fn plan_text_2(
    alloc: Global,
    run: &Run,
    values: &Values,
    transcript: &Transcript,
) -> Result<Vec<u8>, NoMemory>
    ensures { let t = arc_value run.now.task in IfOk result (λ text. text.items ≡ texts.plan_text (contents_of (model_bytes t.model) t run.now.events (Some values.now) transcript.now)) }
{
    let model = model_text(alloc, run.task.model())?;
    text_with_model(alloc, model.as_slice(), run, Some(values), transcript)
}
