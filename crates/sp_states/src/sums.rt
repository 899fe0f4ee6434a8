//! The sum over all states of the product of weights and values.

ghost use Rattle.std.specs.Prelude.{◌≡◌, ◌≤◌, ◌^◌, ◌≤ℤ◌, ◌*ℤ◌, pos, unsigned_abs};
ghost use Rattle.sp_dd.specs.Func.{Everywhere};
ghost use Rattle.sp_dd.specs.Operations.{state_total, state_dot};

use crate::support::SupportList;
use crate::table::ValueTable;

/// The sum of `w * f` over all states, as `sp_ddops::dot` has it of their diagrams. Takes no memory.
pub fn dot(w: &SupportList, f: &ValueTable) -> i128
    requires scopes { w.now.shape ≡ f.now.shape }
    requires total { state_total w.now ≤ℤ pos (2 ^ 62) }
    requires small { Everywhere f.now (λ v. unsigned_abs v ≤ 2 ^ 62) }
    ensures { result ≡ state_dot w.now f.now }
{
    let entries = &w.entries;
    let values = &f.values;
    let mut sum = 0;
    for k in 0..entries.len() {
        let entry = entries[k];
        let value = values[entry.state as usize];
        sum += weighed(entry.weight, value);
    }
    sum
}

/// A weight times a value.
#[inline(always)]
fn weighed(weight: u64, value: i64) -> i128
    requires { weight ≤ 2 ^ 62 }
    ensures { result ≡ pos weight *ℤ value }
{
    let weight = weight as i64;
    weight as i128 * value as i128
}
