//! Judging logs.

ghost use Rattle.std.specs.Prelude.{map, IfOk};
ghost use Rattle.std.specs.Arc.{arc_value};
ghost use Rattle.sp_model.specs.Problem.{problem};
ghost use Rattle.sp_session.specs.Logs.{entries_of, logs_of};
ghost use Rattle.sp_faults.specs.LogFaults.{AreSeen};
ghost use Rattle.sp_audit.specs.Seats.{AreOfModel, editions_in};
ghost use Rattle.sp_audit.specs.Logs.{AreAllSeen, AreLogsJudged, IsLogJudged};

use crate::clause::Clause;
use crate::seats::Seat;
use sp_dd::NoMemory;
use sp_model::Model;
use sp_session::{Entry, SessionLog};
use sp_value::Edition;
use std::alloc::Global;
use std::sync::Arc;

/// What is wrong with a log: at an entry, counted from 1; one more than there are where the log isn't closed.
#[derive(Clone, Copy, Drop)]
pub(crate) struct WrongEntry {
    pub(crate) entry: u64,
    pub(crate) clause: Clause,
}

/// What is wrong with logs: in one of them, counted from 0, at an entry, counted from 1.
#[derive(Clone, Copy, Drop)]
pub(crate) struct WrongLog {
    pub(crate) session: u64,
    pub(crate) entry: u64,
    pub(crate) clause: Clause,
}

/// Judges the entries of a log one after another.
fn judge_entries(
    alloc: Global,
    model: &Model,
    editions: &[Arc<Edition>],
    entries: &[Entry],
) -> Result<Option<WrongEntry>, NoMemory>
    requires editions { AreOfModel model.now (map (λ e. arc_value e) editions.now) }
    requires seen { AreSeen (problem model.now) (entries_of entries.now) }
    ensures { IfOk result (IsLogJudged (problem model.now) (editions_in (map (λ e. arc_value e) editions.now)) (entries_of entries.now)) }
{
    let mut seat = Seat::opened(alloc, model)?;
    for k in 0..entries.len() {
        let answer = seat.judge(alloc, model, editions, &entries[k])?;
        if let Some(clause) = answer {
            return Ok(Some(WrongEntry {
                entry: k as u64 + 1,
                clause,
            }));
        }
    }
    if !seat.closed {
        return Ok(Some(WrongEntry {
            entry: entries.len() as u64 + 1,
            clause: Clause::Closing,
        }));
    }
    Ok(None)
}

/// Judges logs one after another.
pub(crate) fn judge_logs(
    alloc: Global,
    model: &Model,
    editions: &[Arc<Edition>],
    logs: &[SessionLog],
) -> Result<Option<WrongLog>, NoMemory>
    requires editions { AreOfModel model.now (map (λ e. arc_value e) editions.now) }
    requires seen { AreAllSeen (problem model.now) (logs_of logs.now) }
    ensures { IfOk result (AreLogsJudged (problem model.now) (editions_in (map (λ e. arc_value e) editions.now)) (logs_of logs.now)) }
{
    for k in 0..logs.len() {
        let answer = judge_entries(alloc, model, editions, logs[k].entries.as_slice())?;
        if let Some(wrong) = answer {
            return Ok(Some(WrongLog {
                session: k as u64,
                entry: wrong.entry,
                clause: wrong.clause,
            }));
        }
    }
    Ok(None)
}
