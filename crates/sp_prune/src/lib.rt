//! Dominated members of an edition: a value vector that is nowhere above another one adds nothing to the value function
//! (pointwise dominance, Eagle 1984).
#![tactic(auto)]

ghost use Rattle.std.specs.Prelude.{◌≡◌, ◌&&◌, IfOk, filter};
ghost use Rattle.sp_theory.specs.OneThread.{dominated, nowhere_above, yields};
ghost use Rattle.sp_model.specs.Problem.{problem};
ghost use Rattle.sp_value.specs.Editions.{IsVector, member_of, members_in};
ghost use Rattle.sp_prune.specs.Least.{is_less_than, least_of};

use sp_dd::{NoMemory, Pairs};
use sp_model::Model;
use sp_model::functions::below;
use sp_value::{Edition, Member};
use std::alloc::Global;

/// For each member that is nowhere above another one, in order of entry: its id, and the least id of a member above which it is
/// nowhere. Of two equal vectors only the one of the greater id goes.
pub fn dominated(alloc: Global, edition: &Edition) -> Result<Pairs, NoMemory>
    ensures { IfOk result (λ pairs. pairs ≡ dominated (problem edition.now.task.model) (members_in edition.now)) }
{
    let members = edition.members();
    let mut pairs = Pairs::new(alloc);
    for k in 0..members.len() {
        let member = members.at(k);
        match least_above(alloc, edition, member)? {
            Some(id) => pairs.push((member.id, id))?,
            None => {}
        }
    }
    Ok(pairs)
}

/// The least id of the members for which a member may go.
fn least_above(alloc: Global, edition: &Edition, member: &Member) -> Result<Option<u64>, NoMemory>
    requires { IsVector edition.now.task.model member.now.vector }
    ensures { IfOk result (λ least. least ≡ least_of (filter (yields (problem edition.now.task.model) (member_of edition.now.task.model member.now)) (members_in edition.now))) }
{
    let model = edition.task().model();
    let members = edition.members();
    let mut least = None;
    for k in 0..members.len() {
        let other = members.at(k);
        if improves(alloc, model, member, other, least)? {
            least = Some(other.id);
        }
    }
    Ok(least)
}

/// Whether a member may go for another one whose id is less than the least one so far.
fn improves(
    alloc: Global,
    model: &Model,
    member: &Member,
    other: &Member,
    least: Option<u64>,
) -> Result<bool, NoMemory>
    requires member { IsVector model.now member.now.vector }
    requires other { IsVector model.now other.now.vector }
    ensures { IfOk result (λ b. b ≡ (is_less_than other.now.id least && yields (problem model.now) (member_of model.now member.now) (member_of model.now other.now))) }
{
    if !is_less(other.id, least) {
        return Ok(false);
    }
    let goes = may_go(alloc, model, member, other)?;
    Ok(goes)
}

/// Whether a number is less than the least one so far.
fn is_less(id: u64, least: Option<u64>) -> bool
    ensures { result ≡ is_less_than id least }
{
    match least {
        None => true,
        Some(least) => id < least,
    }
}

/// Whether a member may go for another one: it is nowhere above it, and of two equal vectors it has the greater id.
fn may_go(alloc: Global, model: &Model, member: &Member, other: &Member) -> Result<bool, NoMemory>
    requires member { IsVector model.now member.now.vector }
    requires other { IsVector model.now other.now.vector }
    ensures { IfOk result (λ b. b ≡ yields (problem model.now) (member_of model.now member.now) (member_of model.now other.now)) }
{
    if member.id == other.id {
        return Ok(false);
    }
    if !is_nowhere_above(alloc, model, member, other)? {
        return Ok(false);
    }
    if other.id < member.id {
        return Ok(true);
    }
    let equal = is_nowhere_above(alloc, model, other, member)?;
    Ok(!equal)
}

/// Whether a member's vector is at no state above another's.
pub fn is_nowhere_above(
    alloc: Global,
    model: &Model,
    member: &Member,
    other: &Member,
) -> Result<bool, NoMemory>
    requires member { IsVector model.now member.now.vector }
    requires other { IsVector model.now other.now.vector }
    ensures { IfOk result (λ b. b ≡ nowhere_above (problem model.now) (member_of model.now member.now) (member_of model.now other.now)) }
{
    let _ = model.parts();
    let point = below(alloc, &member.vector, &other.vector)?;
    Ok(point.is_none())
}
