//! What stands behind the model of a plan file.

ghost use Rattle.std.specs.Prelude.{◌≡◌, ◌≢◌, ℕ, ◌++◌, ◌∷◌, List, length, Err, IfOk};
ghost use Rattle.std.specs.Arc.{arc_value};
ghost use Rattle.sp_value.specs.Events.{events_of};
ghost use Rattle.sp_session.specs.Logs.{logs_of};
ghost use Rattle.sp_filed.specs.declared.moves.Unsampled.TheVariants as stops;
ghost use Rattle.sp_filed.specs.declared.stops.Stop.TheVariants as lines;
ghost use Rattle.sp_lines.specs.Lines.{BeginsLineOf};
ghost use Rattle.sp_planfile.specs.PlanText.{options_line};
ghost use Rattle.sp_planfile.specs.Form.{AreInRange};
ghost use Rattle.sp_value.specs.Tasks.{IsTask};
ghost use Rattle.sp_filed.specs.Sampled.{IsUnseenMove};
ghost use Rattle.sp_filed.specs.Tails.{sizes_for, StopsBehindOptions, StopsBehindModel, IsUnseenBehindModel, IsReadBehindOptions, IsReadBehindModel};

use crate::moves::{Unsampled, beliefs_first};
use crate::options::options_of;
use crate::sizes::Sizes;
use crate::stops::Stop;
use crate::tails::{Tail, events_to_end};
use sp_dd::NoMemory;
use sp_lines::first_line;
use sp_model::{Model, SampleList, Samples};
use sp_session::Transcript;
use sp_value::{Options, Run, Task, Values};
use std::alloc::Global;
use std::sync::Arc;

/// What a plan file tells: a run with its task, the value of each edition at belief 0 in ticks of 10^-9 in version 2, and the logs.
#[derive(Drop)]
pub struct Filed {
    pub run: Run,
    pub values: Option<Values>,
    pub transcript: Transcript,
}

/// What a text tells of a model from the options on, to its end.
pub(crate) fn read_behind_model(
    alloc: Global,
    model: Model,
    text: &[u8],
    has_values: bool,
) -> Result<Filed, Unsampled>
    ensures ok { IfOk result (λ f. IsReadBehindModel has_values model text.now (arc_value f.run.task) f.run.events f.values f.transcript) }
    ensures shape { (left : ℕ) → result ≡ Err (stops.Shape left) → StopsBehindModel has_values model text.now left }
    ensures sample { (left : ℕ) → result ≡ Err (stops.Sample left) → IsUnseenBehindModel model text.now left }
{
    let (options, rest) = match options_first(text) {
        Ok(found) => found,
        Err(left) => return Err(Unsampled::Shape(left)),
    };
    let (list, tail) = match read_behind_options(alloc, &model, rest, options, has_values) {
        Ok(found) => found,
        Err(stop) => return Err(stop),
    };
    match joined(alloc, model, options, list, tail) {
        Ok(filed) => Ok(filed),
        Err(NoMemory) => Err(Unsampled::NoMemory),
    }
}

/// The options that a text begins with, and what stands behind their line; or how many bytes are left.
fn options_first(text: &[u8]) -> Result<(Options, &[u8]), u64>
    ensures ok { IfOk result (λ r. AreInRange r.0 × (text.now ≡ options_line r.0 ++ 10 ∷ r.1.now)) }
    ensures err { (left : ℕ) → result ≡ Err left → (¬ (BeginsLineOf options_line AreInRange text.now)) × (left ≡ length text.now) }
{
    let left = text.len() as u64;
    let Some((line, rest)) = first_line(text) else {
        return Err(left);
    };
    match options_of(line) {
        Some(options) => Ok((options, rest)),
        None => Err(left),
    }
}

/// What the form of lines depends on.
fn sizes_of(model: &Model, options: Options) -> Sizes
    ensures { result ≡ sizes_for model.now options }
{
    Sizes {
        beliefs: options.beliefs,
        actions: model.action_count(),
        joint: model.joint_count(),
    }
}

/// The beliefs that a text tells, and what stands behind them, to its end.
fn read_behind_options(
    alloc: Global,
    model: &Model,
    text: &[u8],
    options: Options,
    has_values: bool,
) -> Result<(SampleList, Tail), Unsampled>
    requires { AreInRange options }
    ensures ok { IfOk result (λ r. IsReadBehindOptions has_values model.now options text.now r.0 (events_of r.1.events) r.1.values (logs_of r.1.transcript)) }
    ensures shape { (left : ℕ) → result ≡ Err (stops.Shape left) → StopsBehindOptions has_values model.now options text.now left }
    ensures sample { (left : ℕ) → result ≡ Err (stops.Sample left) → IsUnseenMove model.now (sizes_for model.now options) options.depth text.now left }
{
    let sizes = sizes_of(model, options);
    let (list, rest) = match beliefs_first(alloc, model, text, sizes, options.depth) {
        Ok(found) => found,
        Err(stop) => return Err(stop),
    };
    match events_to_end(alloc, rest, sizes, has_values) {
        Ok(tail) => Ok((list, tail)),
        Err(stop) => Err(widened(stop)),
    }
}

/// The same reason, where a belief could be the reason too.
fn widened(stop: Stop) -> Unsampled
    ensures shape { (left : ℕ) → result ≡ stops.Shape left → stop ≡ lines.Shape left }
    ensures sample { (left : ℕ) → result ≢ stops.Sample left }
{
    match stop {
        Stop::Shape(left) => Unsampled::Shape(left),
        Stop::NoMemory => Unsampled::NoMemory,
    }
}

/// All of it in one value.
fn joined(
    alloc: Global,
    model: Model,
    options: Options,
    list: SampleList,
    tail: Tail,
) -> Result<Filed, NoMemory>
    requires { IsTask (record { model = model; samples = record { list = list; depth = options.depth }; options = options }) }
    ensures { IfOk result (λ f. (arc_value f.run.task ≡ record { model = model; samples = record { list = list; depth = options.depth }; options = options }) × (f.run.events ≡ tail.events) × (f.values ≡ tail.values) × (f.transcript ≡ tail.transcript)) }
{
    let samples = Samples {
        list,
        depth: options.depth,
    };
    let task = Arc::new(alloc, Task::new(model, samples, options)).map_err(|_| NoMemory)?;
    let Tail {
        events,
        values,
        transcript,
    } = tail;
    Ok(Filed {
        run: Run { task, events },
        values,
        transcript,
    })
}
