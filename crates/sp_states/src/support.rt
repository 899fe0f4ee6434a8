//! The states of weight of a weights function.

ghost use Rattle.std.specs.Prelude.{◌≡◌, ◌<◌, ◌≤◌, ◌^◌, ◌+◌, ◌++◌, ◌⊎◌, ◌≤ℤ◌, ℕ, pos, length, replicate, IfOk, MatchOption, MatchBool, All};
ghost use Rattle.sp_dd.specs.Func.{Everywhere, IsOnUnprimed, state_count};
ghost use Rattle.sp_dd.specs.Operations.{state_total};
ghost use Rattle.sp_states.specs.States.{widths_of, support_count, values_over, entries_from};
ghost use Rattle.sp_states.specs.Walks.{IsPartFrom, IsBlock, IsWeight, value_of_part};

use crate::cofactor::cofactor;
use crate::widths::{MOST_STATES, few_states, state_width};
use sp_dd::{Diagram, NoMemory, Nodes, Part, Scope};
use std::alloc::Global;
use std::marker::Model;

/// A state by its number, and its weight.
#[derive(Clone, Copy)]
pub(crate) struct Entry {
    pub(crate) state: u32,
    pub(crate) weight: u64,
}

/// A weights function, with its states of weight above 0.
#[derive(Drop)]
pub struct SupportList {
    pub(crate) scope: Scope,
    /// The states in the order of their numbers, the last variable fastest.
    pub(crate) entries: Vec<Entry>,
}

impl Model for SupportList {
    ghost use Rattle.sp_dd.specs.Func.{Func};

    ghost Value = { Func };

    ghost use Rattle.sp_states.specs.States.{AreEntries, function_of_weights};

    ghost view = { λ l. function_of_weights l.scope l.entries.items };

    ghost invariant = { λ l. AreEntries l.scope l.entries.items };
}

impl SupportList {
    /// The list of a weights function, by one walk over its diagram; none where there are more than `MOST_STATES` states, or
    /// more than `room` of weight.
    pub fn new(alloc: Global, w: &Diagram, room: usize) -> Result<Option<SupportList>, NoMemory>
        requires unprimed { IsOnUnprimed w.now }
        requires not_negative { Everywhere w.now (λ v. pos 0 ≤ℤ v) }
        requires total { state_total w.now ≤ℤ pos (2 ^ 62) }
        ensures { IfOk result (λ found. MatchOption found ((MOST_STATES < state_count w.now.shape) ⊎ (room < support_count w.now)) (λ l. (l ≡ w.now) × (state_count w.now.shape ≤ MOST_STATES) × (support_count w.now ≤ room))) }
    {
        let scope = w.scope();
        let Some(count) = few_states(scope) else {
            return Ok(None);
        };
        let all = Block {
            slot: 0,
            first: 0,
            count,
        };
        let mut entries = Vec::new(alloc);
        let whole = list_support(scope, w.nodes(), w.root(), all, room, &mut entries)?;
        if !whole {
            return Ok(None);
        }
        Ok(Some(SupportList {
            scope: *scope,
            entries,
        }))
    }
}

/// States that share the values of the slots before one: so many, from that number on.
#[derive(Clone, Copy)]
pub(crate) struct Block {
    pub(crate) slot: u64,
    pub(crate) first: u64,
    pub(crate) count: u64,
}

/// Appends the states of a block at which a part isn't 0. Answers whether there is room for them.
fn list_support(
    scope: &Scope,
    nodes: &Nodes,
    part: Part,
    block: Block,
    room: usize,
    entries: &mut Vec<Entry>,
) -> Result<bool, NoMemory>
    requires part { IsPartFrom scope.now nodes.now part block.slot block.count }
    requires block { IsBlock block }
    requires weights { All IsWeight (values_over (widths_of scope.now) block.slot (value_of_part nodes.now part)) }
    requires room { length entries.old.items ≤ room }
    ensures { let more = entries.old.items ++ entries_from block.first (values_over (widths_of scope.now) block.slot (value_of_part nodes.now part)) in IfOk result (λ whole. MatchBool whole ((entries.new.items ≡ more) × (length more ≤ room)) (room < length more)) }
{
    if let Part::Leaf(value) = part {
        let whole = append(entries, value as u64, block, room)?;
        return Ok(whole);
    }
    let width = state_width(scope, block.slot);
    let count = block.count / width;
    for value in 0..width {
        let next = cofactor(nodes, block.slot, value, part);
        let inner = Block {
            slot: block.slot + 1,
            first: block.first + value * count,
            count,
        };
        if !list_support(scope, nodes, next, inner, room, entries)? {
            return Ok(false);
        }
    }
    Ok(true)
}

/// Appends the states of a block, each of that weight, where it is above 0. Answers whether there is room for them.
fn append(
    entries: &mut Vec<Entry>,
    weight: u64,
    block: Block,
    room: usize,
) -> Result<bool, NoMemory>
    requires block { IsBlock block }
    requires room { length entries.old.items ≤ room }
    ensures { let more = entries.old.items ++ entries_from block.first (replicate block.count (pos weight)) in IfOk result (λ whole. MatchBool whole ((entries.new.items ≡ more) × (length more ≤ room)) (room < length more)) }
{
    if weight == 0 {
        return Ok(true);
    }
    for k in 0..block.count {
        if entries.len() == room {
            return Ok(false);
        }
        let state = (block.first + k) as u32;
        entries.push(Entry { state, weight }).map_err(|_| NoMemory)?;
    }
    Ok(true)
}
