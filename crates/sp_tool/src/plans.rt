//! What is told and written of plan files.

ghost use Rattle.std.specs.Prelude.{◌≡◌, ℕ, List, [], ◌∷◌, ◌≤◌, length, IfOk, IfErr};
ghost use Rattle.std.specs.Arc.{arc_value};
ghost use Rattle.sp_value.specs.Events.{events_of};
ghost use Rattle.sp_audit.specs.Replays.{IsReplayOf};
ghost use Rattle.sp_outside.specs.Folder.{IsLaterFolder};
ghost use Rattle.sp_words.specs.declared.job.Job.TheVariants.{Audit, Migrate, Act};
ghost use Rattle.sp_judging.specs.PlanFiles.{IsLegalFile, IsAuditText, IsMigratedText, IsReason};
ghost use Rattle.sp_tool.specs.Kinds.{kind_word};
ghost use Rattle.sp_tool.specs.Inputs.{TellsNone, plan_file, plan_limit};
ghost use Rattle.sp_tool.specs.Table.{IsTextFor, Told};
ghost use Rattle.sp_tool.specs.Faults.{Hinders, HindersFiles, TellsReason};

use crate::fault::Fault;
use crate::file::file_bytes;
use crate::lines;
use crate::scripts::file_script;
use sp_filed::PlanKind;
use sp_judging::{JudgeError, LegalPlan, act_text, audit_text, judged_plan, migrated_text};
use sp_outside::Store;
use std::alloc::Global;

/// How many bytes a plan file may have.
const PLAN_LIMIT: u64 = 1_073_741_824;

/// What is told of a legal plan file.
pub fn audit_job<S: Store>(alloc: Global, store: &mut S, file: &str) -> Result<Vec<u8>, Fault>
    ensures text { IfOk result (λ t. IsTextFor (S.folder store.old) (Audit file.now) t.items) }
    ensures fault { IfErr result (λ f. Hinders (Audit file.now) (S.folder store.old) (S.folder store.new) f) }
    ensures later { IsLaterFolder (S.folder store.old) (S.folder store.new) }
{
    match file_bytes(alloc, store, file, PLAN_LIMIT) {
        Ok(source) => audit_in(alloc, file, source.as_slice()),
        Err(fault) => Err(fault),
    }
}

/// What is told of these bytes of this file, if they are a legal plan file.
fn audit_in(alloc: Global, file: &str, source: &[u8]) -> Result<Vec<u8>, Fault>
    ensures text { IfOk result (λ t. IsAuditText source.now t.items) }
    ensures fault { IfErr result (λ f. TellsReason TellsNone (plan_file file.now) source.now f) }
{
    match audit_text(alloc, source) {
        Ok(told) => Ok(told),
        Err(error) => Err(plan_fault(alloc, file, error)),
    }
}

/// A legal plan file in version 2.
pub fn migrate_job<S: Store>(alloc: Global, store: &mut S, file: &str) -> Result<Vec<u8>, Fault>
    ensures text { IfOk result (λ t. IsTextFor (S.folder store.old) (Migrate file.now) t.items) }
    ensures fault { IfErr result (λ f. Hinders (Migrate file.now) (S.folder store.old) (S.folder store.new) f) }
    ensures later { IsLaterFolder (S.folder store.old) (S.folder store.new) }
{
    match file_bytes(alloc, store, file, PLAN_LIMIT) {
        Ok(source) => migrate_in(alloc, file, source.as_slice()),
        Err(fault) => Err(fault),
    }
}

/// These bytes of this file in version 2, if they are a legal plan file.
fn migrate_in(alloc: Global, file: &str, source: &[u8]) -> Result<Vec<u8>, Fault>
    ensures text { IfOk result (λ t. IsMigratedText source.now t.items) }
    ensures fault { IfErr result (λ f. TellsReason TellsNone (plan_file file.now) source.now f) }
{
    match migrated_text(alloc, source) {
        Ok(migrated) => Ok(migrated),
        Err(error) => Err(plan_fault(alloc, file, error)),
    }
}

/// The logs of a script that is served on the last edition of a legal plan file, as the lines from `sessions` to `done`.
pub fn act_job<S: Store>(
    alloc: Global,
    store: &mut S,
    file: &str,
    script: &str,
) -> Result<Vec<u8>, Fault>
    ensures text { IfOk result (λ t. IsTextFor (S.folder store.old) (Act file.now script.now) t.items) }
    ensures fault { IfErr result (λ f. Hinders (Act file.now script.now) (S.folder store.old) (S.folder store.new) f) }
    ensures later { IsLaterFolder (S.folder store.old) (S.folder store.new) }
{
    let plan = match file_plan(alloc, store, file) {
        Ok(plan) => plan,
        Err(fault) => return Err(fault),
    };
    let commands = match file_script(alloc, store, script, plan.filed.run.task.model()) {
        Ok(commands) => commands,
        Err(fault) => return Err(fault),
    };
    let text = act_text(alloc, &plan, commands)?;
    Ok(text)
}

/// The legal plan in a file.
fn file_plan<S: Store>(alloc: Global, store: &mut S, file: &str) -> Result<LegalPlan, Fault>
    ensures plan { IfOk result (λ p. (source : List ℕ) × Told ((S.folder store.old).content file.now) source × (length source ≤ plan_limit)
        × IsLegalFile source (arc_value p.filed.run.task) p.filed.run.events p.filed.values p.filed.transcript) }
    ensures replay { IfOk result (λ p. IsReplayOf (arc_value p.filed.run.task) (events_of p.filed.run.events) p.replay) }
    ensures fault { IfErr result (λ f. HindersFiles (plan_file file.now ∷ []) (S.folder store.old) (S.folder store.new) f) }
    ensures later { IsLaterFolder (S.folder store.old) (S.folder store.new) }
{
    match file_bytes(alloc, store, file, PLAN_LIMIT) {
        Ok(source) => plan_in(alloc, file, source.as_slice()),
        Err(fault) => Err(fault),
    }
}

/// The legal plan of these bytes, which are those of this file.
fn plan_in(alloc: Global, file: &str, source: &[u8]) -> Result<LegalPlan, Fault>
    ensures plan { IfOk result (λ p. IsLegalFile source.now (arc_value p.filed.run.task) p.filed.run.events p.filed.values p.filed.transcript) }
    ensures replay { IfOk result (λ p. IsReplayOf (arc_value p.filed.run.task) (events_of p.filed.run.events) p.replay) }
    ensures fault { IfErr result (λ f. TellsReason TellsNone (plan_file file.now) source.now f) }
{
    match judged_plan(alloc, source) {
        Ok(plan) => Ok(plan),
        Err(error) => Err(plan_fault(alloc, file, error)),
    }
}

/// What is told of a file whose bytes are no legal plan file, for this reason.
fn plan_fault(alloc: Global, file: &str, error: JudgeError) -> Fault
    ensures { (source : List ℕ) → IsReason source error → TellsReason TellsNone (plan_file file.now) source result }
{
    match error {
        JudgeError::Fault { at, kind } => {
            match lines::write_refused_line(alloc, file, at, word_of(kind)) {
                Ok(line) => Fault::Refused(line),
                Err(_) => Fault::NoMemory,
            }
        }
        JudgeError::NotLegal(note) => {
            match lines::write_not_legal_line(alloc, file, note.as_slice()) {
                Ok(line) => Fault::NotLegal(line),
                Err(_) => Fault::NoMemory,
            }
        }
        JudgeError::NoMemory => Fault::NoMemory,
    }
}

/// The name of what is at fault in a plan file.
fn word_of(kind: PlanKind) -> &'static [u8]
    ensures { result.now ≡ kind_word kind }
{
    match kind {
        PlanKind::Model => b"Model",
        PlanKind::Sample => b"Sample",
        PlanKind::Shape => b"Shape",
    }
}
