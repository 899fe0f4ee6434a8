//! The calls of an audit.

ghost use Rattle.std.specs.Prelude.{◌≡◌, length, IfOk};
ghost use Rattle.std.specs.Arc.{arc_value};
ghost use Rattle.sp_theory.specs.Runs.{IsLegal};
ghost use Rattle.sp_model.specs.Problem.{problem};
ghost use Rattle.sp_value.specs.Tasks.{task_of};
ghost use Rattle.sp_value.specs.Events.{events_of};
ghost use Rattle.sp_session.specs.Logs.{logs_of};
ghost use Rattle.sp_faults.specs.RunFaults.{AreSettlesSampled};
ghost use Rattle.sp_audit.specs.Logs.{AreAllSeen};
ghost use Rattle.sp_audit.specs.Verdicts.{IsVerdict, run_editions, values_after};
ghost use Rattle.sp_audit.specs.Replays.{IsFirstOther, IsLastEdition, IsReplayOf};

use crate::judgments::{Judgment, judged};
use crate::replays::Replay;
use crate::verdict::Verdict;
use sp_dd::NoMemory;
use sp_session::Transcript;
use sp_value::{Edition, Run, Values};
use std::alloc::Global;
use std::sync::Arc;

/// Whether a run and its logs are legal: the run's events first, then the logs in order. `judged` gives the replay besides.
pub fn audit(alloc: Global, run: &Run, transcript: &Transcript) -> Result<Verdict, NoMemory>
    requires sampled { AreSettlesSampled (task_of (arc_value run.now.task)) (events_of run.now.events) }
    requires seen { AreAllSeen (problem (arc_value run.now.task).model) (logs_of transcript.now) }
    ensures { IfOk result (IsVerdict (task_of (arc_value run.now.task)) (events_of run.now.events) (logs_of transcript.now)) }
{
    match judged(alloc, run, transcript)? {
        Judgment::Legal(_) => Ok(Verdict::Legal),
        Judgment::Wrong {
            session,
            event,
            clause,
        } => Ok(Verdict::Wrong {
            session,
            event,
            clause,
        }),
    }
}

/// The last edition of a legal run.
pub fn last_edition(alloc: Global, run: &Run) -> Result<Arc<Edition>, NoMemory>
    requires { IsLegal (task_of (arc_value run.now.task)) (events_of run.now.events) }
    ensures { IfOk result (λ e. IsLastEdition (arc_value run.now.task) (events_of run.now.events) (arc_value e)) }
{
    let replay = replayed(alloc, run)?;
    let edition = Arc::try_clone(replay.last_edition())?;
    Ok(edition)
}

/// The value of each edition of a legal run at belief 0, in ticks of 10^-9, rounded down.
pub fn values_of(alloc: Global, run: &Run) -> Result<Values, NoMemory>
    requires { IsLegal (task_of (arc_value run.now.task)) (events_of run.now.events) }
    ensures { IfOk result (λ values. values ≡ values_after (arc_value run.now.task) (events_of run.now.events)) }
{
    let replay = replayed(alloc, run)?;
    Ok(replay.into_values())
}

/// The number of the first of these values of a legal run's editions that isn't theirs, counted from 1.
pub fn audit_values(alloc: Global, run: &Run, values: &Values) -> Result<Option<u64>, NoMemory>
    requires legal { IsLegal (task_of (arc_value run.now.task)) (events_of run.now.events) }
    requires count { length values.now ≡ length (run_editions (task_of (arc_value run.now.task)) (events_of run.now.events)) }
    ensures { IfOk result (IsFirstOther values.now (values_after (arc_value run.now.task) (events_of run.now.events))) }
{
    let replay = replayed(alloc, run)?;
    Ok(replay.first_wrong_value(values))
}

/// The replay of a legal run.
fn replayed(alloc: Global, run: &Run) -> Result<Replay, NoMemory>
    requires { IsLegal (task_of (arc_value run.now.task)) (events_of run.now.events) }
    ensures { IfOk result (IsReplayOf (arc_value run.now.task) (events_of run.now.events)) }
{
    let transcript = Transcript::new(alloc);
    match judged(alloc, run, &transcript)? {
        Judgment::Legal(replay) => Ok(replay),
        Judgment::Wrong { .. } => unreachable!(),
    }
}
