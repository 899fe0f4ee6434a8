//! Backups, and the value vectors of all actions with the same links.

ghost use Rattle.std.specs.Prelude.{All};
ghost use Rattle.std.specs.Bool.{OnTrue};
ghost use Rattle.sp_backup.specs.Members.{HasMember};

use crate::models::push_values;
use crate::numbers::push_numbers;
use crate::stopped::Stopped;
use sp_backup::assemble;
use sp_value::{Candidate, Edition, Member};
use std::alloc::Global;

/// Whether a member has that id.
fn has_member(members: &[Member], id: u64) -> bool
    ensures { OnTrue result (HasMember members.now id) }
{
    for member in members {
        if member.id == id {
            return true;
        }
    }
    false
}

/// Whether all links are ids of members.
fn are_members(members: &[Member], links: &[u64]) -> bool
    ensures { OnTrue result (All (HasMember members.now) links.now) }
{
    for link in links {
        if !has_member(members, *link) {
            return false;
        }
    }
    true
}

/// Adds the line of an action: the values that it has with these links.
fn push_action(
    text: &mut String,
    alloc: Global,
    edition: &Edition,
    action: u64,
    links: &[u64],
) -> Result<(), Stopped> {
    let model = edition.task().model();
    if action >= model.action_count() {
        return Err(Stopped);
    }
    if links.len() as u64 != model.joint_count() {
        return Err(Stopped);
    }
    if !are_members(edition.members().as_slice(), links) {
        return Err(Stopped);
    }
    let vector = assemble(alloc, edition, action, links)?;
    write!(text, "action {action}:")?;
    push_values(text, alloc, model, &vector)
}

/// Adds the line of a candidate: its belief, its edition, its action, its links and its values at all states.
fn push_own(text: &mut String, alloc: Global, candidate: &Candidate) -> Result<(), Stopped> {
    let base: &Edition = candidate.base();
    let (belief, number, action) = (candidate.belief(), base.number(), candidate.action());
    write!(text, "backup {belief} on {number}: {action},")?;
    push_numbers(text, candidate.links().as_slice())?;
    text.push_str(":")?;
    push_values(text, alloc, base.task().model(), candidate.vector())
}

/// Adds the lines of a candidate, and of each action with the same links.
pub fn push_candidate(
    text: &mut String,
    alloc: Global,
    candidate: &Candidate,
) -> Result<(), Stopped> {
    push_own(text, alloc, candidate)?;
    let base: &Edition = candidate.base();
    for action in 0..base.task().model().action_count() {
        push_action(text, alloc, base, action, candidate.links().as_slice())?;
    }
    Ok(())
}
