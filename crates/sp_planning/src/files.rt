//! The plan file of what one thread plans.

ghost use Rattle.std.specs.Prelude.{IfOk};
ghost use Rattle.sp_planner.specs.Planned.{AreOptions};
ghost use Rattle.sp_planning.specs.PlanFiles.{IsPlanFileFor};

use crate::books::book_file;
use sp_choose::Chooser;
use sp_dd::NoMemory;
use sp_model::Model;
use sp_planner::plan_book;
use sp_session::Transcript;
use sp_value::Options;
use std::alloc::Global;

/// Plans as `sp_planner::plan` does, and gives the plan file of the run, of version 2 and without sessions. The chooser is used up.
pub fn plan_file(
    alloc: Global,
    model: Model,
    options: Options,
    chooser: Box<dyn Chooser + Send>,
) -> Result<Vec<u8>, NoMemory>
    requires { AreOptions options }
    ensures { IfOk result (λ text. IsPlanFileFor model options (machine chooser) text.items) }
{
    let book = plan_book(alloc, model, options, chooser)?;
    let text = book_file(alloc, book, &Transcript::new(alloc))?;
    Ok(text)
}
