//! Editions of two equal members, which no book has.

ghost use Rattle.std.specs.Prelude.{◌≡◌, IfOk};

use crate::numbers::push_pairs;
use crate::stopped::Stopped;
use sp_dd::NoMemory;
use sp_prune::dominated;
use sp_value::{Edition, Member, Members};
use std::alloc::Global;
use std::sync::Arc;

/// A member under another id.
fn renamed(alloc: Global, member: &Member, id: u64) -> Result<Member, NoMemory>
    ensures { IfOk result (λ x. x ≡ record member.now { id = id }) }
{
    let vector = member.vector.copied(alloc)?;
    Ok(Member {
        id,
        action: member.action,
        vector,
    })
}

/// The edition of the first member of an edition, twice, under these ids.
fn twins(alloc: Global, edition: &Edition, first: u64, second: u64) -> Result<Edition, Stopped> {
    if first == second {
        return Err(Stopped);
    }
    let member = edition.members().at(0);
    let one = renamed(alloc, member, first)?;
    let two = renamed(alloc, member, second)?;
    let mut members = Members::new(alloc);
    members.push(one)?;
    members.push(two)?;
    let task = Arc::try_clone(edition.task())?;
    Ok(Edition::new(edition.number(), task, members))
}

/// Adds the dominated pairs of the edition of the first member of an edition, twice, under these ids.
pub fn push_twins(
    text: &mut String,
    alloc: Global,
    edition: &Edition,
    first: u64,
    second: u64,
) -> Result<(), Stopped> {
    let edition = twins(alloc, edition, first, second)?;
    text.push_str("dominated")?;
    push_pairs(text, &dominated(alloc, &edition)?)
}
