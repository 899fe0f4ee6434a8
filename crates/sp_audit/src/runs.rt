//! Judging the events of a run one after another.

ghost use Rattle.std.specs.Prelude.{IfOk};
ghost use Rattle.std.specs.Arc.{arc_value};
ghost use Rattle.sp_value.specs.Tasks.{task_of};
ghost use Rattle.sp_value.specs.Events.{events_of};

use crate::clause::Clause;
use crate::states::RunState;
use sp_backup::Projections;
use sp_dd::NoMemory;
use sp_value::{Event, Task};
use std::alloc::Global;
use std::sync::Arc;

/// Events judged: they are a whole legal run, with what is kept of the book after it; or they are wrong at one of them, counted from 1,
/// one more than there are where the end is missing.
#[derive(Drop)]
pub(crate) enum JudgedRun {
    Legal(RunState),
    Wrong(u64, Clause),
}

impl JudgedRun {
    ghost use Rattle.sp_faults.specs.RunFaults.{AreSettlesSampled};
    ghost use Rattle.sp_audit.specs.RunsJudged.{IsRunJudged};

    /// Judges the events one after another.
    pub(crate) fn of(
        alloc: Global,
        task: Arc<Task>,
        events: &[Event],
        kept: &mut Projections,
    ) -> Result<JudgedRun, NoMemory>
        requires { AreSettlesSampled (task_of (arc_value task)) (events_of events.now) }
        ensures { IfOk result (IsRunJudged (arc_value task) (events_of events.now)) }
    {
        let mut state = RunState::opened(alloc, task)?;
        for k in 0..events.len() {
            let answer = state.judge(&events[k], kept)?;
            if let Some(clause) = answer {
                return Ok(JudgedRun::Wrong(k as u64 + 1, clause));
            }
        }
        if !state.done {
            return Ok(JudgedRun::Wrong(events.len() as u64 + 1, Clause::Unfinished));
        }
        Ok(JudgedRun::Legal(state))
    }
}
