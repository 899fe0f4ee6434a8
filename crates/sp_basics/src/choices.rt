//! Choices of actions.

use crate::stopped::Stopped;
use sp_choose::{Chooser, Listed, Sweep, Uniform};
use sp_dd::Ids;
use std::alloc::Global;

/// Adds the actions, of so many, that a chooser chooses in turn by these words.
fn push_choices<C: Chooser>(
    told: &mut String,
    chooser: &mut C,
    actions: u64,
    words: &[u64],
) -> Result<(), Stopped> {
    if actions == 0 {
        return Err(Stopped);
    }
    for (depth, word) in words.iter().enumerate() {
        let action = chooser.choose(depth as u64, actions, *word);
        write!(told, " {action}")?;
    }
    Ok(told.push_str("\n")?)
}

/// Adds what is chosen whatever was chosen before.
pub fn push_uniform(told: &mut String, actions: u64, words: &[u64]) -> Result<(), Stopped> {
    push_choices(told, &mut Uniform, actions, words)
}

/// Adds what is chosen in turn.
pub fn push_sweep(told: &mut String, actions: u64, words: &[u64]) -> Result<(), Stopped> {
    push_choices(told, &mut Sweep::new(), actions, words)
}

/// Adds what is chosen by a list: its length, its numbers, and then the words.
pub fn push_listed(
    told: &mut String,
    alloc: Global,
    actions: u64,
    numbers: &[u64],
) -> Result<(), Stopped> {
    let (length, rest) = numbers.split_first().ok_or(Stopped)?;
    let (list, words) = rest.split_at_checked(*length as usize).ok_or(Stopped)?;
    let mut chooser = Listed::new(ids_of(alloc, list)?);
    push_choices(told, &mut chooser, actions, words)
}

/// A list of these numbers.
pub fn ids_of(alloc: Global, numbers: &[u64]) -> Result<Ids, Stopped> {
    let mut list = Ids::new(alloc);
    for number in numbers {
        list.push(*number)?;
    }
    Ok(list)
}
