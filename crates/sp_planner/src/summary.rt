//! The numbers of a finished run.

ghost use Rattle.std.specs.Prelude.{◌≡◌, ◌<ℤ◌, pos, IfOk};
ghost use Rattle.sp_theory.specs.Scaling.{total_weight};
ghost use Rattle.sp_model.specs.Problem.{problem, shape_of};
ghost use Rattle.sp_model.specs.Links.{weights_of};
ghost use Rattle.sp_value.specs.Tasks.{task_of};
ghost use Rattle.sp_value.specs.Editions.{members_in};
ghost use Rattle.sp_core.specs.Books.{state_of};
ghost use Rattle.sp_planner.specs.Planned.{AreOptions, IsSummaryFor, IsSummaryOf};
ghost use Rattle.sp_planner.specs.Numbers.{value_at_first};

use crate::planning::plan_book;
use sp_choose::Chooser;
use sp_core::Book;
use sp_dd::NoMemory;
use sp_model::functions::{constant, dot};
use sp_model::{Model, Weights};
use sp_value::{Edition, Options};
use std::alloc::Global;

/// What a finished run amounts to.
#[derive(Clone, Copy, Debug, Drop, PartialEq, Eq)]
pub struct Summary {
    /// How many records there are, the leaf with them.
    pub records: u64,
    /// How many editions there are, the opening one with them.
    pub editions: u64,
    /// How many members the last edition has.
    pub members: u64,
    /// The value of the last edition at the initial belief, in ticks of 10^-9, rounded down.
    pub value: i128,
}

/// Plans as `plan` does, and gives the numbers of the finished run.
pub fn summarize(
    alloc: Global,
    model: Model,
    options: Options,
    chooser: Box<dyn Chooser + Send>,
) -> Result<Summary, NoMemory>
    requires { AreOptions options }
    ensures { IfOk result (λ s. IsSummaryFor model options (machine chooser) s) }
{
    let book = plan_book(alloc, model, options, chooser)?;
    let summary = summary_of(alloc, &book)?;
    Ok(summary)
}

/// The numbers of a book.
fn summary_of(alloc: Global, book: &Book) -> Result<Summary, NoMemory>
    ensures { IfOk result (λ s. IsSummaryOf (task_of book.now.task) (state_of book.now) s) }
{
    // what is known of each book
    let _ = book.task();
    let last = book.latest();
    let value = first_value(alloc, last)?;
    Ok(Summary {
        records: book.record_count(),
        editions: book.count(),
        members: last.members().len(),
        value,
    })
}

/// The value of an edition at belief 0, rounded down.
pub(crate) fn first_value(alloc: Global, edition: &Edition) -> Result<i128, NoMemory>
    ensures { IfOk result (λ z. z ≡ value_at_first edition.now.task (members_in edition.now)) }
{
    // what is known of each edition
    let _ = edition.members();
    let task = edition.task();
    let weights = task.weights(0);
    let total = total_of(alloc, task.model(), weights)?;
    let (_, sum) = edition.greatest(alloc, weights)?;
    Ok(sum.div_euclid(total))
}

/// The total of weights.
fn total_of(alloc: Global, model: &Model, weights: &Weights) -> Result<i128, NoMemory>
    requires { weights.now.shape ≡ shape_of model.now }
    ensures some { IfOk result (λ z. pos 0 <ℤ z) }
    ensures value { IfOk result (λ z. z ≡ pos (total_weight (problem model.now) (weights_of model.now weights.now))) }
{
    // what is known of each model
    let _ = model.parts();
    let func = weights.func();
    let one = constant(alloc, func.scope(), 1)?;
    let total = dot(alloc, func, &one)?;
    Ok(total)
}
