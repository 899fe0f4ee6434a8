//! Dominated members, and books that drop them.

ghost use Rattle.std.specs.Prelude.{◌≡◌, IfOk, OnOk};
ghost use Rattle.std.specs.Arc.{arc_value};
ghost use Rattle.sp_core.specs.Pruning.{AreDominatedIn};

use crate::books::{push_not_ours, push_state};
use crate::numbers::{pairs_of, push_ids, push_pairs};
use crate::stopped::Stopped;
use sp_core::{Book, PruneError, Pruned, dominated_may_be_pruned};
use sp_dd::{NoMemory, Pairs};
use sp_drops::{applied, left};
use sp_prune::dominated;
use sp_value::Edition;
use std::alloc::Global;
use std::sync::Arc;

/// The dominated pairs of an edition, which may be pruned.
fn dominated_in(alloc: Global, base: &Arc<Edition>) -> Result<Pairs, NoMemory>
    ensures { IfOk result (λ pairs. AreDominatedIn (arc_value base.now) pairs) }
{
    dominated_may_be_pruned();
    // what is known of each edition
    let _ = base.members();
    let pairs = dominated(alloc, base)?;
    Ok(pairs)
}

/// Adds the first pair once more, where there is one.
fn repeat(base: &Arc<Edition>, pairs: &mut Pairs) -> Result<(), NoMemory>
    requires { AreDominatedIn (arc_value base.now) pairs.old }
    ensures { OnOk result (AreDominatedIn (arc_value base.now) pairs.new) }
{
    if pairs.len() == 0 {
        return Ok(());
    }
    let pair = *pairs.at(0);
    pairs.push(pair)?;
    Ok(())
}

/// Prunes the dominated pairs of an edition of this book or of another, and tells them, the answer, and what stands then.
pub fn prune(
    text: &mut String,
    alloc: Global,
    book: &mut Book,
    base: &Arc<Edition>,
) -> Result<(), Stopped> {
    let pairs = dominated_in(alloc, base)?;
    text.push_str("dominated")?;
    push_pairs(text, &pairs)?;
    prune_pairs(text, book, base, &pairs)
}

/// Prunes the dominated pairs of an edition, of which the first is given twice.
pub fn prune_twice(
    text: &mut String,
    alloc: Global,
    book: &mut Book,
    base: &Arc<Edition>,
) -> Result<(), Stopped> {
    let mut pairs = dominated_in(alloc, base)?;
    repeat(base, &mut pairs)?;
    prune_pairs(text, book, base, &pairs)
}

/// Prunes pairs, and tells the answer and what stands then.
fn prune_pairs(
    text: &mut String,
    book: &mut Book,
    base: &Arc<Edition>,
    pairs: &Pairs,
) -> Result<(), Stopped>
    requires { AreDominatedIn (arc_value base.now) pairs.now }
{
    match book.prune(base, pairs) {
        Ok(answer) => push_pruned(text, answer)?,
        Err(PruneError::NotOurs { base: back, kept }) => {
            push_not_ours(text, &back, base, kept.as_ref())?
        }
        Err(PruneError::NoMemory) => return Err(Stopped),
    }
    push_state(text, book)
}

fn push_pruned(text: &mut String, answer: Pruned) -> Result<(), Stopped> {
    match answer {
        Pruned::Dropped { count } => Ok(writeln!(text, "dropped {count}")?),
        Pruned::Nothing => Ok(text.push_str("nothing\n")?),
        Pruned::Over => Ok(text.push_str("over\n")?),
    }
}

/// Adds which of these pairs of ids apply to the members of an edition, and the ids that they leave.
pub fn push_applied(
    text: &mut String,
    alloc: Global,
    edition: &Edition,
    ids: &[u64],
) -> Result<(), Stopped> {
    let members = edition.members().as_slice();
    let found = applied(alloc, members, &pairs_of(alloc, ids)?)?;
    text.push_str("applied")?;
    push_pairs(text, &found)?;
    text.push_str("left")?;
    push_ids(text, left(alloc, members, &found)?.as_slice())
}
