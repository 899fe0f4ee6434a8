//! Which pairs of members apply, and which members they leave.

ghost use Rattle.std.specs.Prelude.{◌≡◌, ◌∷◌, [], ◌&&◌, cond, map, IfOk};
ghost use Rattle.sp_drops.specs.Drops.{applying_ids, goes, has_id, left_by, without_id};

use sp_dd::{NoMemory, Pairs};
use sp_model::Sequence;
use sp_value::{Member, Members};
use std::alloc::Global;

/// The pairs that apply to some members, in order: both members are among those that the pairs before have left.
pub fn applied(alloc: Global, members: &[Member], pairs: &Pairs) -> Result<Pairs, NoMemory>
    ensures { IfOk result (λ found. found ≡ applying_ids (map (λ x. x.id) members.now) pairs.now) }
{
    let mut ids = ids_of(alloc, members)?;
    let mut found = Pairs::new(alloc);
    for k in 0..pairs.len() {
        let (first, other) = *pairs.at(k);
        if apply(&mut ids, first, other) {
            found.push((first, other))?;
        }
    }
    Ok(found)
}

/// The ids of some members.
fn ids_of(alloc: Global, members: &[Member]) -> Result<Vec<u64>, NoMemory>
    ensures { IfOk result (λ ids. ids.items ≡ map (λ x. x.id) members.now) }
{
    let ids = members.iter().map(|member| member.id).collect(alloc)?;
    Ok(ids)
}

/// Takes the first id out, if both are there.
fn apply(ids: &mut Vec<u64>, first: u64, other: u64) -> bool
    ensures both { result ≡ (has_id ids.old.items first && has_id ids.old.items other) }
    ensures left { ids.new.items ≡ cond result (without_id ids.old.items first) ids.old.items }
{
    if ids.contains(&first) && ids.contains(&other) {
        ids.retain(|id| *id != first);
        true
    } else {
        false
    }
}

/// Copies of the members that are first in no pair.
pub fn left(alloc: Global, members: &[Member], pairs: &Pairs) -> Result<Members, NoMemory>
    ensures { IfOk result (λ some. some ≡ left_by pairs.now members.now) }
{
    let mut some = Vec::new(alloc);
    for member in members {
        if !is_first(pairs, member.id) {
            let copy = member.copied(alloc)?;
            some.push(copy).map_err(|_| NoMemory)?;
        }
    }
    Ok(Sequence::from_vec(some))
}

/// Whether some pair has the id first.
fn is_first(pairs: &Pairs, id: u64) -> bool
    ensures { result ≡ goes pairs.now id }
{
    for k in 0..pairs.len() {
        if id == pairs.at(k).0 {
            return true;
        }
    }
    false
}
