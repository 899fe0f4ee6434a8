//! What value vectors are worth at the sampled beliefs: sums of weights times values in ticks of 10^-9.

ghost use Rattle.std.specs.Prelude.{◌≡◌, ◌<◌, length, IfOk, IfSome, OnOk};
ghost use Rattle.sp_theory.specs.Values as values;
ghost use Rattle.sp_model.specs.Problem.{vector_of, problem};
ghost use Rattle.sp_value.specs.Tasks.{sampled_func, weights_at, task_of};
ghost use Rattle.sp_value.specs.Editions.{IsVector};
ghost use Rattle.sp_ledger.specs.Accounts.{AreWorths};

use crate::listed::{ListedTask, table_of};
use sp_dd::NoMemory;
use sp_model::Func;
use sp_model::functions::dot;
use sp_states::{SupportList, ValueTable};
use sp_value::Task;
use std::alloc::Global;

/// The worth of a vector at a sampled belief.
pub fn worth(alloc: Global, task: &Task, belief: u64, vector: &Func) -> Result<i128, NoMemory>
    requires belief { belief < task.now.options.beliefs }
    requires vector { IsVector task.now.model vector.now }
    ensures { IfOk result (λ z. z ≡ values.dot (problem task.now.model) (weights_at task.now belief) (vector_of task.now.model vector.now)) }
{
    let _ = task.model();
    let sum = dot(alloc, task.weights(belief).func(), vector)?;
    Ok(sum)
}

/// The worth of a vector at a sampled belief, by lists where there are lists.
fn listed_worth(
    alloc: Global,
    task: &ListedTask,
    belief: u64,
    vector: &Func,
    table: &Option<ValueTable>,
) -> Result<i128, NoMemory>
    requires belief { belief < task.now.options.beliefs }
    requires vector { IsVector task.now.model vector.now }
    requires table { IfSome table.now (λ t. t ≡ vector.now) }
    ensures { IfOk result (λ z. z ≡ values.dot (problem task.now.model) (weights_at task.now belief) (vector_of task.now.model vector.now)) }
{
    if let Some(table) = table
        && let Some(list) = task.list(belief)
    {
        return Ok(list_worth(task.task(), belief, vector, list, table));
    }
    let sum = worth(alloc, task.task(), belief, vector)?;
    Ok(sum)
}

/// The worth of a vector at a sampled belief, both as lists.
fn list_worth(
    task: &Task,
    belief: u64,
    vector: &Func,
    list: &SupportList,
    table: &ValueTable,
) -> i128
    requires belief { belief < task.now.options.beliefs }
    requires vector { IsVector task.now.model vector.now }
    requires list { list.now ≡ sampled_func task.now belief }
    requires table { table.now ≡ vector.now }
    ensures { result ≡ values.dot (problem task.now.model) (weights_at task.now belief) (vector_of task.now.model vector.now) }
{
    let _ = task.model();
    let _ = task.weights(belief).func();
    sp_states::dot(list, table)
}

/// The worth of a vector at each sampled belief.
pub fn weigh(
    alloc: Global,
    task: &ListedTask,
    vector: &Func,
    worths: &mut [i128],
) -> Result<(), NoMemory>
    requires count { length worths.old ≡ task.now.options.beliefs }
    requires vector { IsVector task.now.model vector.now }
    ensures { OnOk result (AreWorths (task_of task.now) (vector_of task.now.model vector.now) worths.new) }
{
    let table = table_of(alloc, task.task(), vector)?;
    weigh_by(alloc, task, vector, &table, worths)?;
    Ok(())
}

/// The worth of a vector at each sampled belief, by its table if there is one.
fn weigh_by(
    alloc: Global,
    task: &ListedTask,
    vector: &Func,
    table: &Option<ValueTable>,
    worths: &mut [i128],
) -> Result<(), NoMemory>
    requires count { length worths.old ≡ task.now.options.beliefs }
    requires vector { IsVector task.now.model vector.now }
    requires table { IfSome table.now (λ t. t ≡ vector.now) }
    ensures { OnOk result (AreWorths (task_of task.now) (vector_of task.now.model vector.now) worths.new) }
{
    for belief in 0..worths.len() {
        worths[belief] = listed_worth(alloc, task, belief as u64, vector, table)?;
    }
    Ok(())
}
