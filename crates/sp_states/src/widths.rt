//! How many values states give to slots.

ghost use Rattle.std.specs.Prelude.{◌≡◌, ◌<◌, ◌≤◌, length, get_or, MatchOption};
ghost use Rattle.sp_dd.specs.Func.{IsScope, state_count};
ghost use Rattle.sp_states.specs.States.{widths_of};

use sp_dd::Scope;

/// The most states of a scope whose functions are listed.
pub const MOST_STATES: u64 = 65536;

/// How many states there are, where they are few enough to be listed.
pub(crate) fn few_states(scope: &Scope) -> Option<u64>
    requires { IsScope scope.now }
    ensures { MatchOption result (MOST_STATES < state_count scope.now) (λ n. (n ≡ state_count scope.now) × (n ≤ MOST_STATES)) }
{
    let mut count = 1;
    let mut slot = scope.slots();
    while slot > 0 {
        slot -= 1;
        count *= state_width(scope, slot);
        if count > MOST_STATES {
            return None;
        }
    }
    Some(count)
}

/// How many values states give to a slot: one where it isn't an unprimed state slot.
#[inline(always)]
pub(crate) fn state_width(scope: &Scope, slot: u64) -> u64
    requires scope { IsScope scope.now }
    requires slot { slot < length scope.now.sizes }
    ensures value { result ≡ get_or (widths_of scope.now) slot 0 }
    ensures some { 0 < result }
    ensures few { result ≤ 64 }
{
    if slot >= 2 * scope.variables() {
        return 1;
    }
    if slot % 2 == 1 {
        return 1;
    }
    scope.size(slot)
}
