//! Judging prunes.

ghost use Rattle.std.specs.Prelude.{◌≡◌, ◌≢◌, ◌==◌, IfOk, All, AllPairs, cond, not, filter, option_map};
ghost use Rattle.std.specs.List.{list_any};
ghost use Rattle.sp_model.specs.Problem.{problem};
ghost use Rattle.sp_value.specs.Editions.{IsMemberOf, edition_of, member_of};
ghost use Rattle.sp_faults.specs.PruneTests.{has_above, are_under, can_drop};
ghost use Rattle.sp_audit.specs.Pruning.{IsLeftOf};

use sp_dd::{NoMemory, Pairs};
use sp_ledger::drop_member;
use sp_model::Model;
use sp_prune::is_nowhere_above;
use sp_value::Member;
use std::alloc::Global;

/// Whether a member of an id is there.
fn has(members: &[Member], id: u64) -> bool
    ensures { result ≡ list_any (λ z. z.id == id) members.now }
{
    for k in 0..members.len() {
        if members[k].id == id {
            return true;
        }
    }
    false
}

/// Whether a member is nowhere above some member of an id.
fn is_under_some(
    alloc: Global,
    model: &Model,
    members: &[Member],
    member: &Member,
    id: u64,
) -> Result<bool, NoMemory>
    requires members { All (IsMemberOf model.now) members.now }
    requires member { IsMemberOf model.now member.now }
    ensures { IfOk result (λ b. b ≡ has_above (problem model.now) (edition_of model.now members.now) (member_of model.now member.now) id) }
{
    for k in 0..members.len() {
        let other = &members[k];
        if other.id == id {
            let under = is_nowhere_above(alloc, model, member, other)?;
            if under {
                return Ok(true);
            }
        }
    }
    Ok(false)
}

/// Whether each member of an id is nowhere above some member of the other.
fn are_all_under(
    alloc: Global,
    model: &Model,
    members: &[Member],
    first: u64,
    other: u64,
) -> Result<bool, NoMemory>
    requires { All (IsMemberOf model.now) members.now }
    ensures { IfOk result (λ b. b ≡ are_under (problem model.now) (edition_of model.now members.now) first other) }
{
    for k in 0..members.len() {
        let member = &members[k];
        if member.id == first {
            let under = is_under_some(alloc, model, members, member, other)?;
            if !under {
                return Ok(false);
            }
        }
    }
    Ok(true)
}

/// Whether the first of a pair of ids may go for the other.
fn may_drop(
    alloc: Global,
    model: &Model,
    members: &[Member],
    first: u64,
    other: u64,
) -> Result<bool, NoMemory>
    requires { All (IsMemberOf model.now) members.now }
    ensures { IfOk result (λ b. b ≡ can_drop (problem model.now) (edition_of model.now members.now) first other) }
{
    if first == other {
        return Ok(false);
    }
    if !has(members, first) {
        return Ok(false);
    }
    if !has(members, other) {
        return Ok(false);
    }
    let under = are_all_under(alloc, model, members, first, other)?;
    Ok(under)
}

/// Takes the first of a pair of ids out, where it may go.
fn drop_pair(
    alloc: Global,
    model: &Model,
    left: &mut Vec<Member>,
    first: u64,
    other: u64,
) -> Result<bool, NoMemory>
    requires { All (IsMemberOf model.now) left.old.items }
    ensures may { IfOk result (λ b. b ≡ can_drop (problem model.now) (edition_of model.now left.old.items) first other) }
    ensures left { IfOk result (λ b. left.new.items ≡ cond b (filter (λ z. not (z.id == first)) left.old.items) left.old.items) }
{
    let may = may_drop(alloc, model, left.as_slice(), first, other)?;
    if may {
        drop_member(left, first);
    }
    Ok(may)
}

/// The members that pairs of ids leave of some, one after another; nothing where one of them may not go.
pub(crate) fn left_of(
    alloc: Global,
    model: &Model,
    members: Vec<Member>,
    pairs: &Pairs,
) -> Result<Option<Vec<Member>>, NoMemory>
    requires known { All (IsMemberOf model.now) members.items }
    requires different { AllPairs (λ x y. x.id ≢ y.id) members.items }
    ensures { IfOk result (λ r. IsLeftOf model.now members.items pairs.now (option_map (λ v. v.items) r)) }
{
    let mut left = members;
    for k in 0..pairs.len() {
        let (first, other) = *pairs.at(k);
        let may = drop_pair(alloc, model, &mut left, first, other)?;
        if !may {
            return Ok(None);
        }
    }
    Ok(Some(left))
}
