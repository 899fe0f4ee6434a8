//! Point-based backups.

ghost use Rattle.std.specs.Prelude.{◌≡◌, ◌<◌, All, length, IfOk};
ghost use Rattle.std.specs.Arc.{arc_value};
ghost use Rattle.sp_theory.specs.Points.{count_of};
ghost use Rattle.sp_theory.specs.Backup.{choice};
ghost use Rattle.sp_model.specs.Problem.{problem, sizes_of};
ghost use Rattle.sp_model.specs.Links.{weights_of};
ghost use Rattle.sp_value.specs.Tasks.{sampled_func};
ghost use Rattle.sp_value.specs.Editions.{members_in};
ghost use Rattle.sp_value.specs.Candidates.{IsCandidate};
ghost use Rattle.sp_backup.specs.Choosing.{ids_at, AreLinks};
ghost use Rattle.sp_backup.specs.Trials.{IsTrial, IsActionVector};

use crate::assembling::assemble;
use crate::models::model_of;
use crate::projections::{Kept, Projections};
use crate::promises::pushed_trial;
use crate::pulling::pulled_trial;
use crate::setting::Setting;
use crate::values::tables_for;
use sp_dd::{Ids, NoMemory};
use sp_model::Func;
use sp_model::functions::dot;
use sp_value::{Candidate, Edition, Member};
use std::alloc::Global;
use std::sync::Arc;

/// An action with the places of its links, its value vector, and the vector's sum at the weights.
#[derive(Drop)]
pub struct Trial {
    pub action: u64,
    pub places: Ids,
    pub vector: Func,
    pub sum: i128,
}

/// The value vector of an action, and its sum at the weights.
#[derive(Drop)]
pub(crate) struct ActionVector {
    pub vector: Func,
    pub sum: i128,
}

/// The point-based backup at a sampled belief on an edition (Spaan and Vlassis 2005): for each action and joint observation the
/// member that brings the most, and the action of the greatest vector with those, in ticks of 10^-9. The answer is the same
/// whatever is kept.
pub fn point_backup(
    alloc: Global,
    base: &Arc<Edition>,
    belief: u64,
    kept: &mut Projections,
) -> Result<Candidate, NoMemory>
    requires { belief < (arc_value base.now).task.options.beliefs }
    ensures belief { IfOk result (λ c. c.belief ≡ belief) }
    ensures base { IfOk result (λ c. c.base ≡ arc_value base.now) }
    ensures backup { IfOk result IsCandidate }
{
    let edition: &Edition = base;
    let best = best_trial(alloc, edition, belief, kept)?;
    let ids = ids_of(alloc, edition.members().as_slice(), best.places.as_slice())?;
    let copy = Arc::try_clone(base)?;
    Ok(Candidate::new(belief, copy, best.action, ids, best.vector))
}

/// The trial of the greatest sum at a sampled belief, of the least action at a tie.
fn best_trial(
    alloc: Global,
    edition: &Edition,
    belief: u64,
    kept: &mut Projections,
) -> Result<Trial, NoMemory>
    requires { belief < edition.now.task.options.beliefs }
    ensures { let w = weights_of edition.now.task.model (sampled_func edition.now.task belief) in IfOk result (λ t. IsTrial edition.now w (choice (problem edition.now.task.model) (members_in edition.now) w) t) }
{
    let _ = edition.members();
    let mut held = kept.take_for(alloc, edition)?;
    let before = held.take_tables(alloc);
    let tables = tables_for(alloc, edition, before)?;
    let setting = Setting::new(edition, edition.task().weights(belief), &tables, belief);
    let found = trial_of(alloc, &setting, &mut held);
    held.put_tables(tables);
    kept.put_back(held);
    found
}

/// The trial of the greatest sum, of the least action at a tie, by the way that is likely to be the cheaper one.
fn trial_of(alloc: Global, setting: &Setting, kept: &mut Kept) -> Result<Trial, NoMemory>
    requires { kept.old ≡ setting.now.edition.now.task.model }
    ensures kept { kept.new ≡ kept.old }
    ensures trial { let e = setting.now.edition.now in let w = weights_of e.task.model setting.now.weights.now in IfOk result (λ t. IsTrial e w (choice (problem e.task.model) (members_in e) w) t) }
{
    if is_pulled(setting) {
        return pulled_trial(alloc, setting, kept);
    }
    pushed_trial(alloc, setting, kept)
}

/// Whether a backup is made by the estimates of all members and the vectors of all actions: there is one of each, or the belief is
/// wide, and wider than all members together.
fn is_pulled(setting: &Setting) -> bool {
    let members = setting.edition.members();
    if members.len() == 1 && model_of(setting.edition).action_count() == 1 {
        return true;
    }
    let width = setting.weights.func().nodes().len() as u64;
    WIDE < width && width_of(members.as_slice()) < width
}

/// Beliefs of at most so many nodes count as narrow.
const WIDE: u64 = 256;

/// How many nodes the vectors of members have.
fn width_of(members: &[Member]) -> u64 {
    let mut width: u64 = 0;
    for member in members {
        width = width.saturating_add(member.vector.nodes().len() as u64);
    }
    width
}

/// The vector of an action with its links, and its sum at the weights.
pub(crate) fn vector_for(
    alloc: Global,
    setting: &Setting,
    action: u64,
    places: &[u64],
) -> Result<ActionVector, NoMemory>
    requires action { action < length setting.now.edition.now.task.model.actions }
    requires links { let e = setting.now.edition.now in AreLinks e (weights_of e.task.model setting.now.weights.now) action (count_of (sizes_of e.task.model.sights)) places.now }
    ensures { let e = setting.now.edition.now in IfOk result (IsActionVector e (weights_of e.task.model setting.now.weights.now) action) }
{
    let members = setting.edition.members();
    let ids = ids_of(alloc, members.as_slice(), places)?;
    let vector = assemble(alloc, setting.edition, action, ids.as_slice())?;
    let sum = dot(alloc, setting.weights.func(), &vector)?;
    Ok(ActionVector { vector, sum })
}

/// The ids of the members at these places.
fn ids_of(alloc: Global, members: &[Member], places: &[u64]) -> Result<Ids, NoMemory>
    requires { All (λ k. k < length members.now) places.now }
    ensures { IfOk result (λ ids. ids ≡ ids_at members.now places.now) }
{
    let mut ids = Ids::new(alloc);
    for place in places {
        ids.push(members[*place as usize].id)?;
    }
    Ok(ids)
}
