//! The closing answers.

ghost use Rattle.std.specs.Prelude.{◌≡◌, All, IfOk};
ghost use Rattle.std.specs.Arc.{arc_value};
ghost use Rattle.sp_session.specs.Logs.{log_of, logs_of};
ghost use Rattle.sp_session.specs.Sessions.{closed_log};
ghost use Rattle.sp_serving.specs.Serving.{HasEntriesOf};
ghost use Rattle.sp_desk.specs.Ended.{MayCloseOn, closed_logs};

use crate::seats::Seat;
use sp_dd::NoMemory;
use sp_session::{SessionLog, Transcript};
use sp_value::Edition;
use std::alloc::Global;
use std::sync::Arc;

/// The log of a session with its closing answer.
fn close(seat: Seat, last: &Arc<Edition>) -> Result<SessionLog, NoMemory>
    requires { MayCloseOn (arc_value last.now) seat }
    ensures value { IfOk result (λ log. log_of log ≡ closed_log seat.session (arc_value last.now)) }
    ensures known { IfOk result (λ log. HasEntriesOf (arc_value last.now).task.model (log_of log)) }
{
    let Seat { session, .. } = seat;
    match session.finish(last) {
        Ok(log) => Ok(log),
        Err(_) => Err(NoMemory),
    }
}

/// The logs of sessions with their closing answers, in order.
pub(crate) fn close_all(
    alloc: Global,
    seats: Vec<Seat>,
    last: &Arc<Edition>,
) -> Result<Transcript, NoMemory>
    requires { All (MayCloseOn (arc_value last.now)) seats.items }
    ensures logs { IfOk result (λ logs. logs_of logs ≡ closed_logs seats.items (arc_value last.now)) }
    ensures known { IfOk result (λ logs. All (HasEntriesOf (arc_value last.now).task.model) (logs_of logs)) }
{
    let mut logs = Transcript::new(alloc);
    for seat in seats {
        let log = close(seat, last)?;
        logs.push(log)?;
    }
    Ok(logs)
}
