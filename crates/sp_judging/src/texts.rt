//! What is written of legal plan files.

ghost use Rattle.std.specs.Prelude.{◌≡◌, IfOk, IfErr};
ghost use Rattle.sp_judging.specs.PlanFiles.{audit_line, IsAuditText, IsMigratedText, IsReason};

use crate::error::JudgeError;
use crate::judging::judged_plan;
use sp_planfile::plan_text_2;
use std::alloc::{AllocError, Global};

/// How many events, editions and sessions a legal plan file has; or why it isn't one.
pub fn audit_text(alloc: Global, source: &[u8]) -> Result<Vec<u8>, JudgeError>
    ensures text { IfOk result (λ text. IsAuditText source.now text.items) }
    ensures err { IfErr result (λ e. IsReason source.now e) }
{
    let plan = match judged_plan(alloc, source) {
        Ok(plan) => plan,
        Err(error) => return Err(error),
    };
    let text = audit_line(
        alloc,
        plan.filed.run.events.len(),
        plan.replay.values().len(),
        plan.filed.transcript.len(),
    )?;
    Ok(text)
}

/// The line with these counts.
fn audit_line(
    alloc: Global,
    events: u64,
    editions: u64,
    sessions: u64,
) -> Result<Vec<u8>, AllocError>
    ensures { IfOk result (λ text. text.items ≡ audit_line events editions sessions) }
{
    let text = format!(in alloc;
        "legal events {events} editions {editions} sessions {sessions}\n"
    )?;
    Ok(text.into_bytes())
}

/// The plan file of version 2 of the run and the transcript of a legal plan file, with the values of the run's editions; or why it isn't
/// one.
pub fn migrated_text(alloc: Global, source: &[u8]) -> Result<Vec<u8>, JudgeError>
    ensures text { IfOk result (λ text. IsMigratedText source.now text.items) }
    ensures err { IfErr result (λ e. IsReason source.now e) }
{
    let plan = match judged_plan(alloc, source) {
        Ok(plan) => plan,
        Err(error) => return Err(error),
    };
    let run = &plan.filed.run;
    let values = plan.replay.values();
    // what is known of the count, and of the weights at belief 0
    let _ = values.len();
    let _ = run.task.options();
    let _ = run.task.weights(0).func();
    let text = plan_text_2(alloc, run, values, &plan.filed.transcript)?;
    Ok(text)
}
