//! What trees are for, their places, and the slots that they may mention.

ghost use Rattle.std.specs.Prelude.{◌≡◌, ◌≤◌, ◌<◌, ◌^◌, length, if◌then◌else◌};
ghost use Rattle.sp_trees.specs.Slots.{union, one};
ghost use Rattle.sp_checks.specs.Roles as spec;

use sp_dd::Scope;
use sp_rows::Table;
use sp_syntax::Tree;
use sp_trees::Slots;

/// What a tree of a text is for.
#[derive(Clone, Copy, Debug, Drop, PartialEq, Eq)]
pub enum Role {
    /// To be referred to.
    Dd,
    /// A factor of the initial belief.
    Init,
    /// The reward, or a cost.
    Reward,
    /// A table of an action.
    Table(Table),
}

/// The first byte of a tree.
pub(crate) fn start_of(tree: &Tree) -> u64
    ensures { result ≡ spec.start_of tree.now }
{
    match tree {
        Tree::Number { left, .. } => left.start,
        Tree::Reference { left, .. } => left.start,
        Tree::Node { left, .. } => left.start,
        Tree::PrimedNode { left, .. } => left.start,
        Tree::Sum { left, .. } => left.start,
        Tree::Product { left, .. } => left.start,
    }
}

/// Whether the table of a state variable may mention a slot.
fn may_move_mention(variables: u64, variable: u64, slot: u64) -> bool
    requires few { variables ≤ 28 }
    requires variable { variable ≤ 28 }
    ensures { result ≡ spec.move_mentions variables variable slot }
{
    slot < 2 * variables && (slot % 2 == 0 || slot <= 2 * variable + 1)
}

/// Whether the table of an observation variable may mention a slot.
fn may_sight_mention(variables: u64, sight: u64, slot: u64) -> bool
    requires few { variables ≤ 28 }
    requires sight { sight ≤ 56 }
    ensures { result ≡ spec.sight_mentions variables sight slot }
{
    (slot < 2 * variables && slot % 2 == 1) || slot == 2 * variables + sight
}

/// Whether a tree in that role may mention a slot, where there are so many state variables.
fn may_mention(variables: u64, role: Role, slot: u64) -> bool
    requires few { variables ≤ 28 }
    requires role { spec.IsSmallRole role }
    ensures { result ≡ spec.may_mention variables role slot }
{
    match role {
        Role::Dd => true,
        Role::Init => slot < 2 * variables && slot % 2 == 0,
        Role::Reward => slot < 2 * variables,
        Role::Table(Table::Move(variable)) => may_move_mention(variables, variable, slot),
        Role::Table(Table::Sight(sight)) => may_sight_mention(variables, sight, slot),
    }
}

/// The set with a slot more, where the test says so.
fn with_slot(set: Slots, test: bool, slot: u64) -> Slots
    requires { slot < 64 }
    ensures { result ≡ (if test then union set (one slot) else set) }
{
    if test {
        set.union(Slots::one(slot))
    } else {
        set
    }
}

/// The slots that a tree in that role may mention.
#[tactic(auto, using(crate::proofs::RoleLemmas::no_slot, crate::proofs::RoleLemmas::one_slot_more))]
pub(crate) fn allowed(scope: &Scope, role: Role) -> Slots
    requires { spec.IsSmallRole role }
    ensures { result ≡ spec.allowed_slots scope.now role }
{
    let variables = scope.variables();
    let mut allowed = Slots::none();
    for slot in 0..scope.slots() {
        allowed = with_slot(allowed, may_mention(variables, role, slot), slot);
    }
    allowed
}
