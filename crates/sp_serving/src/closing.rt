//! The closing answers.

ghost use Rattle.std.specs.Prelude.{◌≡◌, map, All, IfOk};
ghost use Rattle.std.specs.Arc.{arc_value};
ghost use Rattle.sp_model.specs.Problem.{problem};
ghost use Rattle.sp_session.specs.Logs.{log_of, logs_of};
ghost use Rattle.sp_serving.specs.Replies.{closed_on};
ghost use Rattle.sp_serving.specs.Serving.{HasEntriesOf, IsSeatOf, log_in, shown_in};

use sp_dd::NoMemory;
use sp_session::{Session, SessionLog, Transcript};
use sp_value::Edition;
use std::alloc::Global;
use std::sync::Arc;

/// The log of a session with its closing answer.
fn close(session: Session, last: &Arc<Edition>) -> Result<SessionLog, NoMemory>
    requires { IsSeatOf (arc_value last.now).task (arc_value last.now).number session }
    ensures value { IfOk result (λ log. log_of log ≡ closed_on (problem (arc_value last.now).task.model) (shown_in (arc_value last.now)) (log_in session)) }
    ensures known { IfOk result (λ log. HasEntriesOf (arc_value last.now).task.model (log_of log)) }
{
    match session.finish(last) {
        Ok(log) => Ok(log),
        Err(_) => Err(NoMemory),
    }
}

/// The logs of sessions with their closing answers, in order.
pub(crate) fn close_all(
    alloc: Global,
    sessions: Vec<Session>,
    last: &Arc<Edition>,
) -> Result<Transcript, NoMemory>
    requires { All (IsSeatOf (arc_value last.now).task (arc_value last.now).number) sessions.items }
    ensures logs { IfOk result (λ logs. logs_of logs ≡ map (closed_on (problem (arc_value last.now).task.model) (shown_in (arc_value last.now))) (map log_in sessions.items)) }
    ensures known { IfOk result (λ logs. All (HasEntriesOf (arc_value last.now).task.model) (logs_of logs)) }
{
    let mut logs = Transcript::new(alloc);
    for session in sessions {
        let log = close(session, last)?;
        logs.push(log)?;
    }
    Ok(logs)
}
