//! Members of editions.

ghost use Rattle.std.specs.Prelude.{◌≡◌, ◌==◌, ◌<◌, ◌∷◌, ◌++◌, [], not, filter, IfOk};
ghost use Rattle.std.specs.Arc.{arc_value};
ghost use Rattle.sp_theory.specs.Values.{greatest_member};
ghost use Rattle.sp_model.specs.Problem.{problem};
ghost use Rattle.sp_value.specs.Tasks.{weights_at};
ghost use Rattle.sp_value.specs.Editions.{IsEdition, IsMemberOf, member_of, members_in};

use sp_dd::NoMemory;
use sp_model::{Func, Sequence};
use sp_value::{Edition, Member, Members, Task};
use std::alloc::Global;
use std::sync::Arc;

/// The greatest member of an edition at a sampled belief, copied.
pub fn greatest_at(alloc: Global, edition: &Edition, belief: u64) -> Result<Member, NoMemory>
    requires { belief < edition.now.task.options.beliefs }
    ensures greatest { IfOk result (λ x. member_of edition.now.task.model x ≡ greatest_member (problem edition.now.task.model) (members_in edition.now) (weights_at edition.now.task belief)) }
    ensures known { IfOk result (IsMemberOf edition.now.task.model) }
{
    let (place, _) = edition.greatest_place(alloc, edition.task().weights(belief))?;
    let member = edition.members().at(place).copied(alloc)?;
    Ok(member)
}

/// Copies of some members.
pub fn copies(alloc: Global, members: &[Member]) -> Result<Vec<Member>, NoMemory>
    ensures { IfOk result (λ all. all.items ≡ members.now) }
{
    let mut all = Vec::with_capacity(alloc, members.len())?;
    for member in members {
        let copy = member.copied(alloc)?;
        all.push(copy).map_err(|_| NoMemory)?;
    }
    Ok(all)
}

/// Copies of some members, and one more.
pub fn with_one_more(
    alloc: Global,
    members: &[Member],
    id: u64,
    action: u64,
    vector: &Func,
) -> Result<Members, NoMemory>
    ensures { IfOk result (λ all. all ≡ members.now ++ (record { id = id; action = action; vector = vector.now }) ∷ []) }
{
    let mut all = copies(alloc, members)?;
    let vector = vector.copied(alloc)?;
    let last = Member { id, action, vector };
    all.push(last).map_err(|_| NoMemory)?;
    Ok(Sequence::from_vec(all))
}

/// Takes the members of an id out. The others stay in order.
pub fn drop_member(members: &mut Vec<Member>, id: u64)
    ensures { members.new.items ≡ filter (λ z. not (z.id == id)) members.old.items }
{
    members.retain(|member| member.id != id);
}

/// An edition that can be shared.
pub fn shared_edition(
    alloc: Global,
    number: u64,
    task: &Arc<Task>,
    members: Members,
) -> Result<Arc<Edition>, NoMemory>
    requires { IsEdition (record { number = number; task = arc_value task.now; members = members }) }
    ensures { IfOk result (λ e. arc_value e ≡ record { number = number; task = arc_value task.now; members = members }) }
{
    let task = Arc::try_clone(task)?;
    let edition = Arc::new(alloc, Edition::new(number, task, members)).map_err(|_| NoMemory)?;
    Ok(edition)
}
