//! The plan file of a run that serves a script.

ghost use Rattle.std.specs.Prelude.{All, IfOk};
ghost use Rattle.sp_theory.specs.Points.{count_of};
ghost use Rattle.sp_model.specs.Problem.{sizes_of};
ghost use Rattle.sp_script.specs.Laws.{IsObservationWithin};
ghost use Rattle.sp_planner.specs.Planned.{AreOptions};
ghost use Rattle.sp_planning.specs.ScriptFiles.{IsScriptFileFor};

use crate::books::book_file;
use sp_attending::finish_serving;
use sp_choose::Chooser;
use sp_dd::NoMemory;
use sp_model::Model;
use sp_planner::open_book;
use sp_script::Commands;
use sp_value::Options;
use std::alloc::Global;

/// Plans as `plan_file` does and serves a script while it plans, as `sp_attending::finish_serving` does. Gives the plan file of the
/// run with the logs of the script's sessions. The chooser is used up.
pub fn script_file(
    alloc: Global,
    model: Model,
    options: Options,
    chooser: Box<dyn Chooser + Send>,
    commands: Commands,
) -> Result<Vec<u8>, NoMemory>
    requires options { AreOptions options }
    requires commands { All (IsObservationWithin (count_of (sizes_of model.sights))) commands }
    ensures { IfOk result (λ text. IsScriptFileFor model options (machine chooser) commands text.items) }
{
    // what is known of commands
    let _ = commands.as_slice();
    let mut book = open_book(alloc, model, options, chooser)?;
    let transcript = finish_serving(alloc, &mut book, options.prune, commands)?;
    let text = book_file(alloc, book, &transcript)?;
    Ok(text)
}
