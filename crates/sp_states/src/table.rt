//! The values of a function at all states.

ghost use Rattle.std.specs.Prelude.{◌≡◌, ◌<◌, ◌≤◌, ◌^◌, ◌++◌, ℕ, length, drop, replicate, unsigned_abs, IfOk, OnOk, MatchOption, All};
ghost use Rattle.sp_dd.specs.Func.{Everywhere, IsOnUnprimed, IsScope, state_count};
ghost use Rattle.sp_dd.specs.Ordered.{IsBefore, IsFrom, IsOrdered};
ghost use Rattle.sp_dd.specs.NodeLists.{node_value};
ghost use Rattle.sp_dd.specs.Points.{product};
ghost use Rattle.sp_states.specs.States.{widths_of, values_over};
ghost use Rattle.sp_states.specs.Walks.{IsPartFrom, value_of_part};

use crate::cofactor::cofactor;
use crate::widths::{MOST_STATES, few_states, state_width};
use sp_dd::{Diagram, NoMemory, Nodes, Part, Scope};
use std::alloc::Global;
use std::marker::Model;

/// A function of states, with its value at each state.
#[derive(Drop)]
pub struct ValueTable {
    pub(crate) scope: Scope,
    /// The values in the order of the states' numbers, the last variable fastest.
    pub(crate) values: Vec<i64>,
}

impl Model for ValueTable {
    ghost use Rattle.sp_dd.specs.Func.{Func};
    ghost use Rattle.sp_states.specs.States.{IsValueList, function_of_values};

    ghost Value = { Func };

    ghost view = { λ t. function_of_values t.scope t.values.items };

    ghost invariant = { λ t. IsValueList t.scope t.values.items };
}

impl ValueTable {
    /// The table of a function, by one walk over its diagram; none where there are more than `MOST_STATES` states.
    pub fn new(alloc: Global, f: &Diagram) -> Result<Option<ValueTable>, NoMemory>
        requires unprimed { IsOnUnprimed f.now }
        requires small { Everywhere f.now (λ v. unsigned_abs v ≤ 2 ^ 62) }
        ensures { IfOk result (λ found. MatchOption found (MOST_STATES < state_count f.now.shape) (λ t. (t ≡ f.now) × (state_count f.now.shape ≤ MOST_STATES))) }
    {
        let scope = f.scope();
        let Some(count) = few_states(scope) else {
            return Ok(None);
        };
        let mut values = Vec::with_capacity(alloc, count as usize)?;
        list_values(scope, f.nodes(), f.root(), 0, count, &mut values)?;
        Ok(Some(ValueTable {
            scope: *scope,
            values,
        }))
    }
}

/// Appends the values of a part at all states of the slots from `slot` on, of which there are `count`.
fn list_values(
    scope: &Scope,
    nodes: &Nodes,
    part: Part,
    slot: u64,
    count: u64,
    values: &mut Vec<i64>,
) -> Result<(), NoMemory>
    requires part { IsPartFrom scope.now nodes.now part slot count }
    requires small { All (λ z. unsigned_abs z ≤ 2 ^ 62) (values_over (widths_of scope.now) slot (value_of_part nodes.now part)) }
    ensures { OnOk result (values.new.items ≡ values.old.items ++ values_over (widths_of scope.now) slot (value_of_part nodes.now part)) }
{
    if let Part::Leaf(value) = part {
        append(values, value as i64, count)?;
        return Ok(());
    }
    let width = state_width(scope, slot);
    for value in 0..width {
        let next = cofactor(nodes, slot, value, part);
        list_values(scope, nodes, next, slot + 1, count / width, values)?;
    }
    Ok(())
}

/// Appends a value so many times.
fn append(values: &mut Vec<i64>, value: i64, count: u64) -> Result<(), NoMemory>
    ensures { OnOk result (values.new.items ≡ values.old.items ++ replicate count value) }
{
    for _ in 0..count {
        values.push(value).map_err(|_| NoMemory)?;
    }
    Ok(())
}
