//! The functions that lines make.

use crate::function::Function;
use crate::numbers::{index_at, indices_of, number_at, numbers_from};
use crate::points::size_at;
use crate::stopped::Stopped;
use sp_dd::Scope;
use std::alloc::Global;

/// The function that a line gives by numbers alone.
pub fn given<F: Function>(
    alloc: Global,
    scope: &Scope,
    kind: &str,
    numbers: &[i128],
) -> Result<F, Stopped> {
    match kind {
        "constant" => F::constant(alloc, scope, number_at(numbers, 0)?),
        "row" => {
            let slot = index_at(numbers, 0)?;
            F::leaf_by(alloc, scope, slot, numbers_from(numbers, 1)?)
        }
        "function" => listed(alloc, scope, numbers),
        _ => Err(Stopped),
    }
}

/// The function whose numbers are how many slots it has, these slots, and its values.
fn listed<F: Function>(alloc: Global, scope: &Scope, numbers: &[i128]) -> Result<F, Stopped> {
    let count = index_at(numbers, 0)? as usize;
    let (slots, values) = numbers_from(numbers, 1)?
        .split_at_checked(count)
        .ok_or(Stopped)?;
    let slots = indices_of(alloc, slots)?;
    valued(alloc, scope, slots.as_slice(), values)
}

/// The function of some slots that has these values at their points in slot order.
fn valued<F: Function>(
    alloc: Global,
    scope: &Scope,
    slots: &[u64],
    values: &[i128],
) -> Result<F, Stopped> {
    let mut parts = constants(alloc, scope, values)?;
    for slot in slots.iter().rev() {
        parts = joined(alloc, scope, *slot, parts.as_slice())?;
    }
    match parts.pop() {
        Some(whole) if parts.is_empty() => Ok(whole),
        _ => Err(Stopped),
    }
}

/// A constant for each value.
fn constants<F: Function>(
    alloc: Global,
    scope: &Scope,
    values: &[i128],
) -> Result<Vec<F>, Stopped> {
    let mut parts = Vec::new(alloc);
    for value in values {
        let part = F::constant(alloc, scope, *value)?;
        parts.push(part)?;
    }
    Ok(parts)
}

/// A branch at the slot for as many functions in turn as the slot has values.
fn joined<F: Function>(
    alloc: Global,
    scope: &Scope,
    slot: u64,
    parts: &[F],
) -> Result<Vec<F>, Stopped> {
    let size = size_at(scope, slot)? as usize;
    let mut whole = Vec::new(alloc);
    let mut rest = parts;
    for _ in 0..parts.len() {
        if rest.is_empty() {
            return Ok(whole);
        }
        let (some, others) = rest.split_at_checked(size).ok_or(Stopped)?;
        let part = F::branch(alloc, scope, slot, some)?;
        whole.push(part)?;
        rest = others;
    }
    Ok(whole)
}

/// The branch at a slot for the functions from a place on, one for each of the slot's values.
pub fn branched<F: Function>(
    alloc: Global,
    scope: &Scope,
    slot: u64,
    functions: &[F],
    first: u64,
) -> Result<F, Stopped> {
    let (_, rest) = functions.split_at_checked(first as usize).ok_or(Stopped)?;
    let size = size_at(scope, slot)? as usize;
    let (parts, _) = rest.split_at_checked(size).ok_or(Stopped)?;
    F::branch(alloc, scope, slot, parts)
}

/// The function that a line makes of one function.
pub fn made_of<F: Function>(
    alloc: Global,
    kind: &str,
    f: &F,
    numbers: &[i128],
) -> Result<F, Stopped> {
    match kind {
        "prime" => F::prime(alloc, f),
        "unprime" => F::unprime(alloc, f),
        "copy" => F::copied(alloc, f),
        "times" => F::times(alloc, f, number_at(numbers, 1)?),
        "max_with" => F::max_with(alloc, f, number_at(numbers, 1)?),
        "sum_out" => F::sum_out(alloc, f, index_at(numbers, 1)?),
        "diagonal" => F::diagonal(alloc, f, index_at(numbers, 1)?),
        "restrict" => F::restrict(alloc, f, index_at(numbers, 1)?, index_at(numbers, 2)?),
        _ => Err(Stopped),
    }
}

/// The function that a line makes of two functions.
pub fn made_of_two<F: Function>(
    alloc: Global,
    kind: &str,
    f: &F,
    g: &F,
    numbers: &[i128],
) -> Result<F, Stopped> {
    match kind {
        "add" => F::add(alloc, f, g),
        "mul_floor" => F::mul_floor(alloc, f, g),
        "mul_whole" => F::mul_whole(alloc, f, g)?.ok_or(Stopped),
        "weigh_out" => F::weigh_out(alloc, f, index_at(numbers, 2)?, g),
        _ => Err(Stopped),
    }
}
