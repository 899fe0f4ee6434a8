//! Judges a plan file: its form, the legality of its run and its logs, and its values.

ghost use Rattle.std.specs.Prelude.{◌≡◌, ℕ, ℤ, List, IfOk, IfErr, Option, MatchOption, length};
ghost use Rattle.std.specs.Arc.{arc_value};
ghost use Rattle.sp_value.specs.Events.{events_of};
ghost use Rattle.sp_audit.specs.Replays.{IsReplayOf, IsFirstOther};
ghost use Rattle.sp_audit.specs.Verdicts.{AreWrong};
ghost use Rattle.sp_audit.specs.Clauses.{clause_of};
ghost use Rattle.sp_value.specs.Tasks.{task_of};
ghost use Rattle.sp_session.specs.Logs.{logs_of};
ghost use Rattle.sp_judging.specs.PlanFiles.{IsLegalFile, IsReason, IsNote, AreTrueValues, AreAsMany, IsFirstUntrue};

use crate::error::JudgeError;
use crate::notes::{entry_note, event_note, value_note};
use sp_audit::{Clause, Judgment, Replay, judged};
use sp_dd::NoMemory;
use sp_filed::{Filed, PlanError, read_any};
use sp_session::Transcript;
use sp_value::Values;
use std::alloc::{AllocError, Global};

/// A legal plan file with true values: what it tells, and what its run amounts to.
#[derive(Drop)]
pub struct LegalPlan {
    pub filed: Filed,
    pub replay: Replay,
}

/// What a plan file of either version tells, if its run and its logs are legal and its values are those of its editions; else why
/// not: the first line that isn't as the form needs it, or the first event, entry or value that is wrong, in this order.
pub fn judged_plan(alloc: Global, source: &[u8]) -> Result<LegalPlan, JudgeError>
    ensures legal { IfOk result (λ p. IsLegalFile source.now (arc_value p.filed.run.task) p.filed.run.events p.filed.values p.filed.transcript) }
    ensures replay { IfOk result (λ p. IsReplayOf (arc_value p.filed.run.task) (events_of p.filed.run.events) p.replay) }
    ensures err { IfErr result (λ e. IsReason source.now e) }
{
    let filed = match read_any(alloc, source) {
        Ok(filed) => filed,
        Err(PlanError::Fault { at, kind }) => return Err(JudgeError::Fault { at, kind }),
        Err(PlanError::NoMemory) => return Err(JudgeError::NoMemory),
    };
    match judged(alloc, &filed.run, &filed.transcript) {
        Ok(Judgment::Legal(replay)) => match wrong_value(&filed.values, &replay) {
            None => Ok(LegalPlan { filed, replay }),
            Some(number) => {
                let note = value_note(alloc, number)?;
                Err(JudgeError::NotLegal(note))
            }
        },
        Ok(
            Judgment::Wrong {
                session: None,
                event,
                clause,
            },
        ) => {
            let note = event_note(alloc, event, clause)?;
            Err(JudgeError::NotLegal(note))
        }
        Ok(
            Judgment::Wrong {
                session: Some(place),
                event,
                clause,
            },
        ) => {
            let name = filed.transcript.at(place).name.bytes();
            let note = entry_note(alloc, name, event, clause)?;
            Err(JudgeError::NotLegal(note))
        }
        Err(NoMemory) => Err(JudgeError::NoMemory),
    }
}

/// The number, from 1, of the first value of a file that isn't its edition's, if there is one.
fn wrong_value(values: &Option<Values>, replay: &Replay) -> Option<u64>
    requires { AreAsMany values.now replay.now }
    ensures { IsFirstUntrue values.now replay.now.values result }
{
    match values {
        Some(values) => replay.first_wrong_value(values),
        None => None,
    }
}
