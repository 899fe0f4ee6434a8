//! Backups by the estimates of all members, where few vectors are narrower than the belief.

ghost use Rattle.std.specs.Prelude.{◌≡◌, ◌<◌, length, IfOk};
ghost use Rattle.sp_theory.specs.Points.{count_of, point_of};
ghost use Rattle.sp_theory.specs.Backup.{choice};
ghost use Rattle.sp_model.specs.Problem.{problem, sizes_of};
ghost use Rattle.sp_model.specs.Links.{weights_of};
ghost use Rattle.sp_value.specs.Editions.{members_in};
ghost use Rattle.sp_backup.specs.Choosing.{IsLinkAt, AreLinks};
ghost use Rattle.sp_backup.specs.Trials.{IsTrial};

use crate::backups::{Trial, vector_for};
use crate::estimates::estimate;
use crate::models::model_of;
use crate::projections::Kept;
use crate::setting::Setting;
use sp_dd::{Ids, NoMemory};
use sp_value::is_better;
use std::alloc::Global;

/// The trial of the greatest sum, of the least action at a tie, with the vector of each action.
pub(crate) fn pulled_trial(
    alloc: Global,
    setting: &Setting,
    kept: &mut Kept,
) -> Result<Trial, NoMemory>
    requires { kept.old ≡ setting.now.edition.now.task.model }
    ensures kept { kept.new ≡ kept.old }
    ensures trial { let e = setting.now.edition.now in let w = weights_of e.task.model setting.now.weights.now in IfOk result (λ t. IsTrial e w (choice (problem e.task.model) (members_in e) w) t) }
{
    let _ = setting.edition.members();
    let mut best = tried(alloc, setting, kept, 0)?;
    for action in 1..model_of(setting.edition).action_count() {
        let next = tried(alloc, setting, kept, action)?;
        if is_better(next.sum, next.action, best.sum, best.action) {
            best = next;
        }
    }
    Ok(best)
}

/// An action tried: its links, its vector, and the sum.
fn tried(alloc: Global, setting: &Setting, kept: &mut Kept, action: u64) -> Result<Trial, NoMemory>
    requires kept { kept.old ≡ setting.now.edition.now.task.model }
    requires action { action < length setting.now.edition.now.task.model.actions }
    ensures kept { kept.new ≡ kept.old }
    ensures trial { let e = setting.now.edition.now in IfOk result (λ t. IsTrial e (weights_of e.task.model setting.now.weights.now) action t) }
{
    let places = pulled_links(alloc, setting, kept, action)?;
    let made = vector_for(alloc, setting, action, places.as_slice())?;
    Ok(Trial {
        action,
        places,
        vector: made.vector,
        sum: made.sum,
    })
}

/// The places of the links of an action, in the order of the joint observations' numbers.
fn pulled_links(
    alloc: Global,
    setting: &Setting,
    kept: &mut Kept,
    action: u64,
) -> Result<Ids, NoMemory>
    requires kept { kept.old ≡ setting.now.edition.now.task.model }
    requires action { action < length setting.now.edition.now.task.model.actions }
    ensures kept { kept.new ≡ kept.old }
    ensures links { let e = setting.now.edition.now in IfOk result (AreLinks e (weights_of e.task.model setting.now.weights.now) action (count_of (sizes_of e.task.model.sights))) }
{
    let mut places = Ids::new(alloc);
    for joint in 0..model_of(setting.edition).joint_count() {
        let place = pulled_link(alloc, setting, kept, action, joint)?;
        places.push(place)?;
    }
    Ok(places)
}

/// The place of the member that brings the most at the weights after an action and a joint observation, of the least id at a tie.
/// A single member is the link without its estimate.
fn pulled_link(
    alloc: Global,
    setting: &Setting,
    kept: &mut Kept,
    action: u64,
    joint: u64,
) -> Result<u64, NoMemory>
    requires kept { kept.old ≡ setting.now.edition.now.task.model }
    requires action { action < length setting.now.edition.now.task.model.actions }
    requires joint { joint < count_of (sizes_of setting.now.edition.now.task.model.sights) }
    ensures kept { kept.new ≡ kept.old }
    ensures link { let e = setting.now.edition.now in IfOk result (IsLinkAt e (weights_of e.task.model setting.now.weights.now) action (point_of (sizes_of e.task.model.sights) joint)) }
{
    let members = setting.edition.members();
    if members.len() == 1 {
        return Ok(0);
    }
    let mut place = 0;
    let mut most = estimate(alloc, setting, kept, action, joint, 0)?;
    for k in 1..members.len() {
        let sum = estimate(alloc, setting, kept, action, joint, k)?;
        if is_better(sum, members.at(k).id, most, members.at(place).id) {
            place = k;
            most = sum;
        }
    }
    Ok(place)
}
