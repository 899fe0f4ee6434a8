ghost use Rattle.std.specs.Prelude.{◌≡◌, ◌≤◌, ◌^◌, ◌&&◌, int_le, unsigned_abs, IfOk};
ghost use Rattle.sp_dd.specs.Func.{Everywhere};
ghost use Rattle.sp_rows.specs.Tables as spec;

use sp_dd::{NoMemory, TICKS};
use sp_model::Func;
use sp_model::functions::{add, greatest, least, times};
use std::alloc::Global;

/// What a table is of: the next value of a state variable, or the value of an observation variable, by its number.
#[derive(Clone, Copy, Debug, Drop, PartialEq, Eq)]
pub enum Table {
    Move(u64),
    Sight(u64),
}

/// A row that doesn't sum to one.
#[derive(Clone, Copy, Debug, Drop, PartialEq, Eq)]
pub struct BadRow {
    pub row: u64,
    /// In ticks.
    pub sum: i128,
}

/// The greatest magnitude of a reward, in ticks.
const MOST_REWARD: i128 = 1_000_000_000_000_000;

/// Whether the values from `least` to `greatest` are between these.
fn is_between(least: i128, greatest: i128, low: i128, high: i128) -> bool
    ensures { result ≡ (int_le low least && int_le greatest high) }
{
    low <= least && greatest <= high
}

/// Whether each value is a probability. Takes no memory.
#[tactic(auto, using(crate::proofs::LeafLemmas::within_is))]
pub fn is_probability(f: &Func) -> bool
    ensures { result ≡ spec.is_probability f.now }
{
    let _ = f.scope();
    is_between(least(f), greatest(f), 0, TICKS)
}

/// Whether each value is within a million. Takes no memory.
#[tactic(auto, using(crate::proofs::LeafLemmas::within_is))]
pub fn is_reward(f: &Func) -> bool
    ensures { result ≡ spec.is_reward f.now }
{
    let _ = f.scope();
    is_between(least(f), greatest(f), -MOST_REWARD, MOST_REWARD)
}

/// A reward less a cost.
#[tactic(auto, using(crate::proofs::LeafLemmas::small_cost))]
pub fn less(alloc: Global, reward: &Func, cost: &Func) -> Result<Func, NoMemory>
    requires scopes { reward.now.shape ≡ cost.now.shape }
    requires small_reward { Everywhere reward.now (λ v. unsigned_abs v ≤ 10 ^ 18) }
    requires small_cost { Everywhere cost.now (λ v. unsigned_abs v ≤ 10 ^ 18) }
    ensures { IfOk result (λ f. f ≡ spec.less reward.now cost.now) }
{
    let _ = cost.scope();
    let negative = times(alloc, cost, -1)?;
    let made = add(alloc, reward, &negative)?;
    Ok(made)
}
