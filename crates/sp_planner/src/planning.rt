//! The run that one thread plans.

ghost use Rattle.std.specs.Prelude.{◌≡◌, ◌<◌, ◌≤◌, IfOk, OnOk, MatchBool, true, false};
ghost use Rattle.std.specs.Arc.{arc_value};
ghost use Rattle.sp_value.specs.Tasks.{task_of};
ghost use Rattle.sp_core.specs.Books.{IsBook, state_of};
ghost use Rattle.sp_core.specs.Marks.{marks_of};
ghost use Rattle.sp_core.specs.Opening.{first_parts};
ghost use Rattle.sp_value.specs.Events.{events_of};
ghost use Rattle.sp_sampler.specs.Words.{first_words};
ghost use Rattle.sp_planner.specs.Planned.{AreOptions, IsPlanned, IsTaskFor, picking_words};
ghost use Rattle.sp_planner.specs.Turns.{IsLaterBook, IsTurn, IsBackedUp, IsPruning, IsRun};
ghost use Rattle.sp_planner.specs.Pauses.{IsServed, is_pause, pauses};

use crate::between::{BetweenTurns, Idle};
use rand_core::{Rng, SeedableRng};
use rand_pcg::Lcg128Xsl64;
use sp_backup::{Projections, point_backup};
use sp_choose::Chooser;
use sp_core::Book;
use sp_dd::NoMemory;
use sp_model::Model;
use sp_prune::dominated;
use sp_sampler::sample;
use sp_value::{Options, Run, Task};
use std::alloc::Global;
use std::sync::Arc;

/// How many projections of vectors a backup may keep.
const KEPT: u64 = 1024;

/// Samples beliefs, plans the stages on them, and gives the finished run. The chooser is used up.
pub fn plan(
    alloc: Global,
    model: Model,
    options: Options,
    chooser: Box<dyn Chooser + Send>,
) -> Result<Run, NoMemory>
    requires { AreOptions options }
    ensures { IfOk result (λ run. IsPlanned model options (machine chooser) (arc_value run.task) (events_of run.events)) }
{
    let book = plan_book(alloc, model, options, chooser)?;
    match book.into_run() {
        Ok(run) => Ok(run),
        Err(_) => unreachable!(),
    }
}

/// The finished book of a plan.
pub fn plan_book(
    alloc: Global,
    model: Model,
    options: Options,
    chooser: Box<dyn Chooser + Send>,
) -> Result<Book, NoMemory>
    requires { AreOptions options }
    ensures planned { IfOk result (λ b. IsPlanned model options (machine chooser) b.task b.history) }
    ensures done { IfOk result (λ b. (state_of b).done ≡ true) }
{
    let mut book = open_book(alloc, model, options, chooser)?;
    let mut idle = Idle;
    finish(alloc, &mut book, options.prune, &mut idle)?;
    Ok(book)
}

/// Samples the beliefs of a plan, and gives its book before any event. The chooser is used up.
pub fn open_book(
    alloc: Global,
    model: Model,
    options: Options,
    chooser: Box<dyn Chooser + Send>,
) -> Result<Book, NoMemory>
    requires { AreOptions options }
    ensures task { IfOk result (λ b. IsTaskFor model options (machine chooser) b.task) }
    ensures opening { IfOk result (λ b. b ≡ first_parts b.task) }
{
    let task = task_for(alloc, model, options, chooser)?;
    let book = Book::begin(alloc, task)?;
    Ok(book)
}

/// Plans a book to its end, from whatever events and marks it has, by the words of the task's seed plus 1. With pruning, dominated
/// members are dropped after each stage but the last. `between` is served before the first turn, and after each turn that has added
/// an edition and doesn't end the run; its want of memory ends the call. After an error the book stands later in its run.
pub fn finish<B: BetweenTurns>(
    alloc: Global,
    book: &mut Book,
    pruning: bool,
    between: &mut B,
) -> Result<(), NoMemory>
    ensures run { OnOk result (IsRun pruning book.old (picking_words book.old.task.options) book.new) }
    ensures done { OnOk result ((state_of book.new).done ≡ true) }
    ensures later { IsLaterBook book.old book.new }
    ensures served { OnOk result (IsServed B.serves book.old.task (pauses (task_of book.old.task) pruning book.old.history (marks_of book.old.taken) (picking_words book.old.task.options)) between.old between.new) }
{
    // what is known of each book, here and at the end
    let _ = book.task();
    let (beliefs, stages, seed) = sizes_of(book);
    let mut words = Lcg128Xsl64::seed_from_u64(seed.wrapping_add(1));
    run(alloc, book, pruning, &mut words, beliefs * stages, between)?;
    let _ = book.task();
    Ok(())
}

/// How many beliefs and stages are planned, and the seed.
fn sizes_of(book: &Book) -> (u64, u64, u64)
    ensures beliefs { result.0 ≡ book.now.task.options.beliefs }
    ensures few_beliefs { result.0 ≤ 4096 }
    ensures stages { result.1 ≡ book.now.task.options.stages }
    ensures few_stages { result.1 ≤ 1000 }
    ensures seed { result.2 ≡ book.now.task.options.seed }
{
    let task = book.task();
    // what is known of each task
    let _ = task.model();
    let options = task.options();
    (options.beliefs, options.stages, options.seed)
}

/// As many turns as are asked for, by the words of a generator; none is drawn once the book is finished.
fn run<G: Rng, B: BetweenTurns>(
    alloc: Global,
    book: &mut Book,
    pruning: bool,
    words: &mut G,
    turns: u64,
    between: &mut B,
) -> Result<(), NoMemory>
    ensures run { OnOk result (IsRun pruning book.old (first_words turns (G.stream words.old)) book.new) }
    ensures later { IsLaterBook book.old book.new }
    ensures served { OnOk result (IsServed B.serves book.old.task (pauses (task_of book.old.task) pruning book.old.history (marks_of book.old.taken) (first_words turns (G.stream words.old))) between.old between.new) }
{
    // what is known of each book
    let _ = book.task();
    if book.is_done() {
        return Ok(());
    }
    let mut kept = Projections::new(alloc, KEPT)?;
    between.serve(book)?;
    for _ in 0..turns {
        if book.is_done() {
            return Ok(());
        }
        step(alloc, book, pruning, &mut kept, words.next_u64(), between)?;
    }
    Ok(())
}

/// One turn, and what is served then.
fn step<B: BetweenTurns>(
    alloc: Global,
    book: &mut Book,
    pruning: bool,
    kept: &mut Projections,
    word: u64,
    between: &mut B,
) -> Result<(), NoMemory>
    ensures turn { OnOk result (IsTurn pruning book.old word book.new) }
    ensures later { IsLaterBook book.old book.new }
    ensures known { OnOk result (IsBook book.new) }
    ensures served { OnOk result (MatchBool (is_pause (task_of book.old.task) book.old.history book.new.history) (B.serves between.old book.new between.new) (between.new ≡ between.old)) }
{
    // what is known of each book, here and after the turn
    let _ = book.task();
    let count = book.count();
    turn(alloc, book, pruning, kept, word)?;
    let _ = book.task();
    if count < book.count() && !book.is_done() {
        between.serve(book)?;
    }
    Ok(())
}

/// The task of a model, with its sampled beliefs.
fn task_for(
    alloc: Global,
    model: Model,
    options: Options,
    chooser: Box<dyn Chooser + Send>,
) -> Result<Arc<Task>, NoMemory>
    requires { AreOptions options }
    ensures { IfOk result (λ t. IsTaskFor model options (machine chooser) (arc_value t)) }
{
    // what is known of each model
    let _ = model.parts();
    let samples = sample(
        alloc,
        &model,
        options.beliefs,
        options.depth,
        options.seed,
        chooser,
    )?;
    let task = Arc::new(alloc, Task::new(model, samples, options)).map_err(|_| NoMemory)?;
    Ok(task)
}

/// One turn: a backup at a belief that the word picks, on the latest edition, and what is due then. A finished book stays.
fn turn(
    alloc: Global,
    book: &mut Book,
    pruning: bool,
    kept: &mut Projections,
    word: u64,
) -> Result<(), NoMemory>
    ensures turn { OnOk result (IsTurn pruning book.old word book.new) }
    ensures later { IsLaterBook book.old book.new }
{
    // what is known of each book
    let _ = book.task();
    let Some(belief) = book.next_work(word) else {
        return Ok(());
    };
    let count = book.count();
    back_up(alloc, book, kept, belief)?;
    if count < book.count() {
        drop_dominated(alloc, book, pruning)?;
    }
    Ok(())
}

/// A backup at a belief on the latest edition.
fn back_up(
    alloc: Global,
    book: &mut Book,
    kept: &mut Projections,
    belief: u64,
) -> Result<(), NoMemory>
    requires going { (state_of book.old).done ≡ false }
    requires below { belief < book.old.task.options.beliefs }
    ensures backed_up { OnOk result (IsBackedUp book.old belief book.new) }
    ensures later { IsLaterBook book.old book.new }
{
    // what is known of each book, here and after the settle
    let _ = book.task();
    let base = Arc::try_clone(book.latest())?;
    let candidate = point_backup(alloc, &base, belief, kept)?;
    let settled = book.settle_ours(candidate);
    let _ = book.task();
    match settled {
        Ok(_) => Ok(()),
        Err(_) => Err(NoMemory),
    }
}

/// Drops the dominated members of the latest edition, where that is asked for and the book isn't finished.
fn drop_dominated(alloc: Global, book: &mut Book, pruning: bool) -> Result<(), NoMemory>
    ensures pruned { OnOk result (IsPruning pruning book.old book.new) }
    ensures later { IsLaterBook book.old book.new }
{
    // what is known of each book
    let _ = book.task();
    if !pruning || book.is_done() {
        return Ok(());
    }
    let base = Arc::try_clone(book.latest())?;
    // what is known of each edition
    let _ = base.members();
    let pairs = dominated(alloc, &base)?;
    match book.prune_ours(&base, &pairs) {
        Ok(_) => Ok(()),
        Err(_) => Err(NoMemory),
    }
}
