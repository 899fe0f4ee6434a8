//! A script that is served on a plan that is made.

ghost use Rattle.std.specs.Prelude.{All, IfOk};
ghost use Rattle.std.specs.Arc.{arc_value};
ghost use Rattle.sp_theory.specs.Points.{count_of};
ghost use Rattle.sp_model.specs.Problem.{sizes_of};
ghost use Rattle.sp_value.specs.Events.{events_of};
ghost use Rattle.sp_script.specs.Laws.{IsObservationWithin};
ghost use Rattle.sp_audit.specs.Replays.{IsReplayOf};
ghost use Rattle.sp_judging.specs.ActTexts.{IsActText};

use crate::judging::LegalPlan;
use sp_dd::NoMemory;
use sp_planfile::sessions_text;
use sp_script::Commands;
use sp_serving::serve_all;
use std::alloc::Global;

/// The lines from `sessions` to `done` of a script whose commands are all served on the last edition of a plan, as `judged_plan` gives
/// it.
pub fn act_text(alloc: Global, plan: &LegalPlan, commands: Commands) -> Result<Vec<u8>, NoMemory>
    requires replay { IsReplayOf (arc_value plan.now.filed.run.task) (events_of plan.now.filed.run.events) plan.now.replay }
    requires commands { All (IsObservationWithin (count_of (sizes_of (arc_value plan.now.filed.run.task).model.sights))) commands }
    ensures { IfOk result (λ text. IsActText (arc_value plan.now.filed.run.task) (events_of plan.now.filed.run.events) commands text.items) }
{
    // what is known of commands
    let _ = commands.as_slice();
    let transcript = serve_all(alloc, commands, plan.replay.last_edition())?;
    let text = sessions_text(alloc, &transcript)?;
    Ok(text)
}
