//! What lines ask of functions.

use crate::function::Function;
use crate::numbers::{indices_of, number_at, numbers_from, push_number, push_yes};
use crate::points::{POINTS, advance, first_point};
use crate::stopped::Stopped;
use sp_dd::{Ids, Scope};
use std::alloc::Global;

/// Adds what a line asks of one function.
pub fn push_of<F: Function>(
    told: &mut String,
    alloc: Global,
    scope: &Scope,
    kind: &str,
    f: &F,
    numbers: &[i128],
) -> Result<(), Stopped> {
    match kind {
        "values" => push_values(told, alloc, scope, f),
        "depends" => push_slots(told, scope, f),
        "at" => push_value(told, alloc, f, numbers_from(numbers, 1)?),
        "least" => push_last(told, F::least(f)),
        "greatest" => push_last(told, F::greatest(f)),
        "nodes" => push_last(told, F::node_count(f)? as i128),
        "first_apart" => push_apart(told, alloc, f, number_at(numbers, 1)?),
        _ => Err(Stopped),
    }
}

/// Adds what a line asks of two functions.
pub fn push_of_two<F: Function>(
    told: &mut String,
    alloc: Global,
    kind: &str,
    f: &F,
    g: &F,
) -> Result<(), Stopped> {
    match kind {
        "same" => push_yes(told, F::is_same(f, g)?),
        "is_whole" => push_yes(told, F::mul_whole(alloc, f, g)?.is_some()),
        "dot" => push_last(told, F::dot(alloc, f, g)?),
        "below" => push_point(told, F::below(alloc, f, g)?),
        _ => Err(Stopped),
    }
}

/// Adds a number, and ends the line.
fn push_last(told: &mut String, number: i128) -> Result<(), Stopped> {
    push_number(told, number)?;
    Ok(told.push_str("\n")?)
}

/// Adds a point or none, and ends the line.
fn push_point(told: &mut String, found: Option<Ids>) -> Result<(), Stopped> {
    match found {
        Some(point) => {
            for slot in 0..point.len() {
                push_number(told, *point.at(slot) as i128)?;
            }
            Ok(told.push_str("\n")?)
        }
        None => Ok(told.push_str(" none\n")?),
    }
}

/// Adds the value at a point, and ends the line.
fn push_value<F: Function>(
    told: &mut String,
    alloc: Global,
    f: &F,
    coordinates: &[i128],
) -> Result<(), Stopped> {
    let point = indices_of(alloc, coordinates)?;
    push_last(told, f.value(point.as_slice())?)
}

/// Adds the first point at which the function isn't the value, or none, and ends the line.
fn push_apart<F: Function>(
    told: &mut String,
    alloc: Global,
    f: &F,
    value: i128,
) -> Result<(), Stopped> {
    push_point(told, F::first_apart(alloc, f, value)?)
}

/// Adds the values at all points in slot order, and ends the line.
fn push_values<F: Function>(
    told: &mut String,
    alloc: Global,
    scope: &Scope,
    f: &F,
) -> Result<(), Stopped> {
    let mut point = first_point(alloc, scope)?;
    for _ in 0..POINTS {
        push_number(told, f.value(point.as_slice())?)?;
        if !advance(scope, point.as_mut_slice())? {
            return Ok(told.push_str("\n")?);
        }
    }
    Err(Stopped)
}

/// Adds the slots on which the function depends, and ends the line.
fn push_slots<F: Function>(told: &mut String, scope: &Scope, f: &F) -> Result<(), Stopped> {
    for slot in 0..scope.slots() {
        if F::is_dependent(f, slot)? {
            push_number(told, slot as i128)?;
        }
    }
    Ok(told.push_str("\n")?)
}
