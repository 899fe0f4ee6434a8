//! Numbers in lines.

use crate::stopped::Stopped;
use sp_dd::Pairs;
use sp_value::Member;
use std::alloc::Global;

/// The numbers of a line, with spaces between.
pub fn numbers_of(alloc: Global, line: &str) -> Result<Vec<u64>, Stopped> {
    let mut numbers = Vec::new(alloc);
    for word in line.split_whitespace() {
        numbers.push(word.parse::<u64>()?)?;
    }
    Ok(numbers)
}

/// The number at a place.
pub fn number_at(numbers: &[u64], place: usize) -> Result<u64, Stopped> {
    numbers.get(place).copied().ok_or(Stopped)
}

/// Pairs of numbers, one behind another.
pub fn pairs_of(alloc: Global, numbers: &[u64]) -> Result<Pairs, Stopped> {
    let mut pairs = Pairs::new(alloc);
    for k in 0..numbers.len() / 2 {
        pairs.push((number_at(numbers, 2 * k)?, number_at(numbers, 2 * k + 1)?))?;
    }
    Ok(pairs)
}

/// Adds a number behind a space.
pub fn push_number(text: &mut String, number: u64) -> Result<(), Stopped> {
    Ok(write!(text, " {number}")?)
}

/// Adds numbers, each behind a space.
pub fn push_numbers(text: &mut String, numbers: &[u64]) -> Result<(), Stopped> {
    for number in numbers {
        push_number(text, *number)?;
    }
    Ok(())
}

/// Adds pairs, each number behind a space, and ends the line.
pub fn push_pairs(text: &mut String, pairs: &Pairs) -> Result<(), Stopped> {
    for k in 0..pairs.len() {
        let (first, other) = *pairs.at(k);
        push_number(text, first)?;
        push_number(text, other)?;
    }
    Ok(text.push_str("\n")?)
}

/// Adds the ids of members, each behind a space, and ends the line.
pub fn push_ids(text: &mut String, members: &[Member]) -> Result<(), Stopped> {
    for member in members {
        push_number(text, member.id)?;
    }
    Ok(text.push_str("\n")?)
}
