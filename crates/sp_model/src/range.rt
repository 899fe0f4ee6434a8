//! The range of rewards, and of what they are worth for ever.

ghost use Rattle.std.specs.Prelude.{◌≡◌, ◌*◌, ◌-◌, ◌^◌, ◌<◌, ◌≤◌, ◌*ℤ◌, length, neg_ℤ, pos, unsigned_abs};
ghost use Rattle.std.specs.Int.{int_div_euclid};
ghost use Rattle.sp_model.specs.Rewards.{IsLeastReward, IsGreatestReward};

use crate::functions::{greatest, least};
use crate::parts::ActionPart;
use sp_dd::TICKS;

/// The least reward of some actions, over all states and next states.
pub(crate) fn least_reward(actions: &[ActionPart]) -> i128
    requires { 0 < length actions.now }
    ensures { IsLeastReward actions.now (length actions.now) result }
{
    let mut found = least(&actions[0].reward);
    for action in actions {
        found = found.min(least(&action.reward));
    }
    found
}

/// The greatest reward of some actions, over all states and next states.
pub(crate) fn greatest_reward(actions: &[ActionPart]) -> i128
    requires { 0 < length actions.now }
    ensures { IsGreatestReward actions.now (length actions.now) result }
{
    let mut found = greatest(&actions[0].reward);
    for action in actions {
        found = found.max(greatest(&action.reward));
    }
    found
}

/// What a reward for ever is worth, rounded down.
pub(crate) fn worth_below(reward: i128, discount: u64) -> i128
    requires reward { unsigned_abs reward ≤ 10 ^ 15 }
    requires discount { discount ≤ 999000000 }
    ensures { result ≡ int_div_euclid (pos 1000000000 *ℤ reward) (pos (1000000000 - discount)) }
{
    (TICKS * reward).div_euclid(TICKS - discount as i128)
}

/// What a reward for ever is worth, rounded up.
pub(crate) fn worth_above(reward: i128, discount: u64) -> i128
    requires reward { unsigned_abs reward ≤ 10 ^ 15 }
    requires discount { discount ≤ 999000000 }
    ensures { result ≡ neg_ℤ (int_div_euclid (neg_ℤ (pos 1000000000 *ℤ reward)) (pos (1000000000 - discount))) }
{
    -(-(TICKS * reward)).div_euclid(TICKS - discount as i128)
}
