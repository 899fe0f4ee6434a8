//! Numbers in lines.

use crate::stopped::Stopped;
use std::alloc::Global;

/// The numbers of a line, with spaces between.
pub fn numbers_of(alloc: Global, line: &str) -> Result<Vec<i128>, Stopped> {
    let mut numbers = Vec::new(alloc);
    for word in line.split_whitespace() {
        numbers.push(word.parse::<i128>()?)?;
    }
    Ok(numbers)
}

/// The number at a place.
pub fn number_at(numbers: &[i128], place: usize) -> Result<i128, Stopped> {
    numbers.get(place).copied().ok_or(Stopped)
}

/// The number at a place, which is one of a slot, a value or a function.
pub fn index_at(numbers: &[i128], place: usize) -> Result<u64, Stopped> {
    Ok(u64::try_from(number_at(numbers, place)?)?)
}

/// The numbers from a place on.
pub fn numbers_from(numbers: &[i128], place: usize) -> Result<&[i128], Stopped> {
    numbers.get(place..).ok_or(Stopped)
}

/// A list of numbers of slots or values.
pub fn indices_of(alloc: Global, numbers: &[i128]) -> Result<Vec<u64>, Stopped> {
    let mut indices = Vec::new(alloc);
    for place in 0..numbers.len() {
        indices.push(index_at(numbers, place)?)?;
    }
    Ok(indices)
}

/// Adds a number behind a space.
pub fn push_number(told: &mut String, number: i128) -> Result<(), Stopped> {
    Ok(write!(told, " {number}")?)
}

/// Adds a yes or a no, and ends the line.
pub fn push_yes(told: &mut String, is_so: bool) -> Result<(), Stopped> {
    Ok(told.push_str(if is_so { " yes\n" } else { " no\n" })?)
}
