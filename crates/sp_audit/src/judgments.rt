//! Runs and their logs, judged with one replay.

ghost use Rattle.std.specs.Prelude.{◌≡◌, true, IfOk, List};
ghost use Rattle.std.specs.Arc.{arc_value};
ghost use Rattle.sp_theory.specs.Book as theory;
ghost use Rattle.sp_model.specs.Problem.{problem};
ghost use Rattle.sp_value.specs.Tasks.{task_of};
ghost use Rattle.sp_value.specs.Events.{events_of};
ghost use Rattle.sp_session.specs.Logs.{logs_of};
ghost use Rattle.sp_faults.specs.RunFaults.{AreSettlesSampled};
ghost use Rattle.sp_audit.specs.States.{contents, IsReplayState, IsStateAfter};
ghost use Rattle.sp_audit.specs.Logs.{AreAllSeen};
ghost use Rattle.sp_audit.specs.Replays.{IsJudged, IsReplayOf};

use crate::clause::Clause;
use crate::logs::judge_logs;
use crate::replays::Replay;
use crate::runs::JudgedRun;
use crate::states::RunState;
use sp_backup::Projections;
use sp_dd::NoMemory;
use sp_first_values::first_values;
use sp_session::Transcript;
use sp_value::Run;
use std::alloc::Global;
use std::sync::Arc;

/// How many projections are kept at most, as many as a planner keeps.
const KEPT: u64 = 1024;

/// A run and its logs, judged: legal, with what the run amounts to; or wrong, as in a `Verdict`.
#[derive(Drop)]
pub enum Judgment {
    Legal(Replay),
    Wrong {
        session: Option<u64>,
        event: u64,
        clause: Clause,
    },
}

/// Judges a run, and then its logs in order. Each event is replayed once.
pub fn judged(alloc: Global, run: &Run, transcript: &Transcript) -> Result<Judgment, NoMemory>
    requires sampled { AreSettlesSampled (task_of (arc_value run.now.task)) (events_of run.now.events) }
    requires seen { AreAllSeen (problem (arc_value run.now.task).model) (logs_of transcript.now) }
    ensures { IfOk result (IsJudged (arc_value run.now.task) (events_of run.now.events) (logs_of transcript.now)) }
{
    let task = Arc::try_clone(&run.task)?;
    let mut kept = Projections::new(alloc, KEPT)?;
    match JudgedRun::of(alloc, task, run.events.as_slice(), &mut kept)? {
        JudgedRun::Wrong(event, clause) => Ok(Judgment::Wrong {
            session: None,
            event,
            clause,
        }),
        JudgedRun::Legal(state) => with_logs(alloc, state, transcript),
    }
}

/// Judges the logs behind a legal run.
fn with_logs(alloc: Global, state: RunState, transcript: &Transcript) -> Result<Judgment, NoMemory>
    requires state { IsReplayState (contents state) }
    requires over { state.done ≡ true }
    requires seen { AreAllSeen (problem (contents state).task.model) (logs_of transcript.now) }
    ensures { IfOk result (λ j. (es : List theory.Event) → IsStateAfter es (contents state) → IsJudged (contents state).task es (logs_of transcript.now) j) }
{
    let wrong = judge_logs(
        alloc,
        state.task.task().model(),
        &state.editions,
        transcript.as_slice(),
    )?;
    match wrong {
        Some(wrong) => Ok(Judgment::Wrong {
            session: Some(wrong.session),
            event: wrong.entry,
            clause: wrong.clause,
        }),
        None => {
            let replay = replay_of(alloc, state)?;
            Ok(Judgment::Legal(replay))
        }
    }
}

/// What a run amounts to, of which this is kept.
fn replay_of(alloc: Global, state: RunState) -> Result<Replay, NoMemory>
    requires { IsReplayState (contents state) }
    ensures { IfOk result (λ r. (es : List theory.Event) → IsStateAfter es (contents state) → IsReplayOf (contents state).task es r) }
{
    let values = first_values(alloc, &state.editions)?;
    let RunState { task, editions, .. } = state;
    Ok(Replay::new(task.into_task(), editions, values))
}
