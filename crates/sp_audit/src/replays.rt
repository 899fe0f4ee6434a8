//! What a legal run amounts to.

ghost use Rattle.std.specs.Prelude.{◌≡◌, ◌-◌, ◌<◌, length, map, slice_get, Some};
ghost use Rattle.std.specs.Arc.{arc_value};
ghost use Rattle.sp_audit.specs.Replays.{IsFirstOther};

use sp_value::{Edition, Task, Values};
use std::marker::Model;
use std::sync::Arc;

/// The editions of a run, and the value of each at belief 0 in ticks of 10^-9, rounded down. No call takes memory.
#[derive(Drop)]
pub struct Replay {
    task: Arc<Task>,
    editions: Vec<Arc<Edition>>,
    values: Values,
}

impl Model for Replay {
    ghost use Rattle.std.specs.Prelude.{map};
    ghost use Rattle.std.specs.Arc.{arc_value};
    ghost use Rattle.sp_audit.specs.ReplayParts.{ReplayParts, IsReplay};

    ghost Value = { ReplayParts };

    ghost view = { λ r. record { task = arc_value r.task; editions = map arc_value r.editions.items; values = r.values } };

    ghost invariant = { λ r. IsReplay (record { task = arc_value r.task; editions = map arc_value r.editions.items; values = r.values }) };
}

impl Replay {
    ghost use Rattle.sp_audit.specs.ReplayParts.{IsReplay};

    /// The replay of these parts.
    pub(crate) fn new(task: Arc<Task>, editions: Vec<Arc<Edition>>, values: Values) -> Replay
        requires { IsReplay (record { task = arc_value task; editions = map arc_value editions.items; values = values }) }
        ensures { result ≡ record { task = arc_value task; editions = map arc_value editions.items; values = values } }
    {
        Replay {
            task,
            editions,
            values,
        }
    }

    /// What was planned.
    pub fn task(&self) -> &Arc<Task>
        ensures { arc_value result.now ≡ self.now.task }
    {
        &self.task
    }

    /// The editions, in the order of their numbers.
    pub fn editions(&self) -> &[Arc<Edition>]
        ensures { map (λ e. arc_value e) result.now ≡ self.now.editions }
    {
        self.editions.as_slice()
    }

    /// The last edition.
    pub fn last_edition(&self) -> &Arc<Edition>
        ensures { slice_get self.now.editions (length self.now.editions - 1) ≡ Some (arc_value result.now) }
    {
        &self.editions[self.editions.len() - 1]
    }

    /// The value of each edition at belief 0, in ticks of 10^-9, rounded down.
    pub fn values(&self) -> &Values
        ensures { result.now ≡ self.now.values }
    {
        &self.values
    }

    /// The values, taken out.
    pub fn into_values(self) -> Values
        ensures { result ≡ self.values }
    {
        self.values
    }

    /// The number of the first of these values that isn't that of its edition, counted from 1.
    pub fn first_wrong_value(&self, values: &Values) -> Option<u64>
        requires { length values.now ≡ length self.now.editions }
        ensures { IsFirstOther values.now self.now.values result }
    {
        first_other(values.as_slice(), self.values.as_slice())
    }
}

/// The number of the first item that isn't the other list's, counted from 1.
fn first_other(values: &[i128], others: &[i128]) -> Option<u64>
    requires { length values.now ≡ length others.now }
    ensures { IsFirstOther values.now others.now result }
{
    for k in 0..values.len() {
        if values[k] != others[k] {
            return Some(k as u64 + 1);
        }
    }
    None
}
