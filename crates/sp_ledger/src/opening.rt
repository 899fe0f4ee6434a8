//! What is kept of a book before any event.

ghost use Rattle.std.specs.Prelude.{◌≡◌, ◌∷◌, [], false, pos, IfOk, length, replicate};
ghost use Rattle.std.specs.Arc.{arc_value};
ghost use Rattle.sp_value.specs.Editions.{IsMemberOf};
ghost use Rattle.sp_ledger.specs.Opening.{first_edition, first_member};

use crate::members::shared_edition;
use sp_dd::NoMemory;
use sp_model::Sequence;
use sp_model::functions::constant;
use sp_value::{Edition, Member, Task};
use std::alloc::Global;
use std::sync::Arc;

/// The member of record 0: the least return everywhere.
pub fn leaf_of(alloc: Global, task: &Task) -> Result<Member, NoMemory>
    ensures value { IfOk result (λ x. x ≡ first_member task.now) }
    ensures known { IfOk result (IsMemberOf task.now.model) }
{
    let model = task.model();
    let _ = model.scope().slots();
    let vector = constant(alloc, model.scope(), model.least_return())?;
    Ok(Member {
        id: 0,
        action: 0,
        vector,
    })
}

/// Edition 0, of one member.
pub fn first_edition(
    alloc: Global,
    task: &Arc<Task>,
    member: Member,
) -> Result<Arc<Edition>, NoMemory>
    requires value { member ≡ first_member (arc_value task.now) }
    requires known { IsMemberOf (arc_value task.now).model member }
    ensures { IfOk result (λ e. arc_value e ≡ first_edition (arc_value task.now)) }
{
    let _ = task.model();
    let mut members = Vec::new(alloc);
    members.push(member).map_err(|_| NoMemory)?;
    let edition = shared_edition(alloc, 0, task, Sequence::from_vec(members))?;
    Ok(edition)
}

/// A list of one edition.
pub fn one_edition(alloc: Global, edition: Arc<Edition>) -> Result<Vec<Arc<Edition>>, NoMemory>
    ensures { IfOk result (λ v. v.items ≡ edition ∷ []) }
{
    let mut editions = Vec::new(alloc);
    editions.push(edition).map_err(|_| NoMemory)?;
    Ok(editions)
}

/// A flag for each of some beliefs, down.
pub fn down_flags(alloc: Global, count: usize) -> Result<Vec<bool>, NoMemory>
    ensures { IfOk result (λ v. v.items ≡ replicate count false) }
{
    let flags = vec![in alloc; false; count]?;
    Ok(flags)
}

/// Room for a value at each of some beliefs: zeros.
pub fn zero_values(alloc: Global, count: usize) -> Result<Vec<i128>, NoMemory>
    ensures { IfOk result (λ v. v.items ≡ replicate count (pos 0)) }
{
    let values = vec![in alloc; 0i128; count]?;
    Ok(values)
}
