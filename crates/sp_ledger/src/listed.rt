//! A task with its sampled beliefs as lists.

ghost use Rattle.std.specs.Prelude.{◌≡◌, ◌<◌, IfOk, IfSome};
ghost use Rattle.std.specs.Arc.{arc_value};
ghost use Rattle.sp_value.specs.Editions.{IsVector};
ghost use Rattle.sp_value.specs.Tasks.{sampled_func};
ghost use Rattle.sp_ledger.specs.Listed.{AreLists};

use sp_dd::NoMemory;
use sp_model::Func;
use sp_states::{SupportList, ValueTable};
use sp_value::Task;
use std::alloc::Global;
use std::marker::Model;
use std::sync::Arc;

/// How many states of weight the lists of all sampled beliefs have together at most.
const ROOM: u64 = 1 << 20;

/// How many states of weight a list has at most for each node of the belief's diagram, with one more: a walk over a node costs
/// about as much as so many states.
const STATES_FOR_A_NODE: usize = 32;

/// A task, and its sampled beliefs of few states as lists, which are made once for all vectors that are weighed and for all copies.
/// Contracts see the task.
#[derive(Drop)]
pub struct ListedTask {
    task: Arc<Task>,
    /// One for each sampled belief: none where the belief is too wide, or the model too large.
    lists: Arc<Vec<Option<SupportList>>>,
}

impl Model for ListedTask {
    ghost use Rattle.std.specs.Arc.{arc_value};
    ghost use Rattle.sp_value.specs.Tasks.{TaskParts};
    ghost use Rattle.sp_ledger.specs.Listed.{AreLists};

    ghost Value = { TaskParts };

    ghost view = { λ l. arc_value l.task };

    ghost invariant = { λ l. AreLists (arc_value l.task) (arc_value l.lists).items };
}

impl ListedTask {
    /// The task with its lists.
    pub fn new(alloc: Global, task: Arc<Task>) -> Result<ListedTask, NoMemory>
        ensures { IfOk result (λ l. l ≡ arc_value task) }
    {
        let lists = lists_of(alloc, &task)?;
        let lists = Arc::new(alloc, lists).map_err(|_| NoMemory)?;
        Ok(ListedTask { task, lists })
    }

    /// The same task with the same lists, shared. Takes no memory.
    pub fn shared(&self) -> Result<ListedTask, NoMemory>
        ensures { IfOk result (λ l. l ≡ self.now) }
    {
        let task = Arc::try_clone(&self.task)?;
        let lists = Arc::try_clone(&self.lists)?;
        Ok(ListedTask { task, lists })
    }

    /// The task. Takes no memory.
    pub fn task(&self) -> &Arc<Task>
        ensures { arc_value result.now ≡ self.now }
    {
        &self.task
    }

    /// The task, taken out.
    pub fn into_task(self) -> Arc<Task>
        ensures { arc_value result ≡ self }
    {
        self.task
    }

    /// A sampled belief as a list, where it has one. Takes no memory.
    pub(crate) fn list(&self, belief: u64) -> Option<&SupportList>
        requires { belief < self.now.options.beliefs }
        ensures { IfSome result (λ l. l.now ≡ sampled_func self.now belief) }
    {
        match &self.lists[belief as usize] {
            Some(list) => Some(list),
            None => None,
        }
    }
}

/// Lists for the sampled beliefs of a task.
fn lists_of(alloc: Global, task: &Task) -> Result<Vec<Option<SupportList>>, NoMemory>
    ensures { IfOk result (λ lists. AreLists task.now lists.items) }
{
    // what is known of each task
    let _ = task.model();
    let beliefs = task.options().beliefs;
    let share = (ROOM / beliefs) as usize;
    let mut lists = Vec::with_capacity(alloc, beliefs as usize)?;
    for belief in 0..beliefs {
        let list = list_of(alloc, task, belief, share)?;
        lists.push(list).map_err(|_| NoMemory)?;
    }
    Ok(lists)
}

/// The list of a sampled belief of so many states of weight at most, where it isn't too wide.
fn list_of(
    alloc: Global,
    task: &Task,
    belief: u64,
    share: usize,
) -> Result<Option<SupportList>, NoMemory>
    requires { belief < task.now.options.beliefs }
    ensures { IfOk result (λ found. IfSome found (λ l. l ≡ sampled_func task.now belief)) }
{
    let weights = task.weights(belief).func();
    let narrow = weights
        .nodes()
        .len()
        .saturating_add(1)
        .saturating_mul(STATES_FOR_A_NODE);
    let list = SupportList::new(alloc, weights, share.min(narrow))?;
    Ok(list)
}

/// The values of a vector at all states, where there are few.
pub(crate) fn table_of(
    alloc: Global,
    task: &Task,
    vector: &Func,
) -> Result<Option<ValueTable>, NoMemory>
    requires { IsVector task.now.model vector.now }
    ensures { IfOk result (λ found. IfSome found (λ t. t ≡ vector.now)) }
{
    let _ = task.model();
    let table = ValueTable::new(alloc, vector)?;
    Ok(table)
}
