//! Scopes and their points.

use crate::numbers::{index_at, indices_of, numbers_from};
use crate::stopped::Stopped;
use sp_dd::{Ids, Scope};
use sp_yardstick::scopes::{has_slot, is_shape};
use std::alloc::Global;

/// More points than any scope here has whose points are gone through.
pub const POINTS: u64 = 1 << 16;

/// The scope of a line: its number of state variables, and the sizes of its slots.
pub fn scope_of(alloc: Global, numbers: &[i128]) -> Result<Scope, Stopped> {
    let variables = index_at(numbers, 0)?;
    let sizes = indices_of(alloc, numbers_from(numbers, 1)?)?;
    let mut list = Ids::new(alloc);
    for size in sizes.as_slice() {
        list.push(*size)?;
    }
    if !is_shape(&list, variables) {
        return Err(Stopped);
    }
    Ok(Scope::new(list, variables))
}

/// The size of a slot.
pub fn size_at(scope: &Scope, slot: u64) -> Result<u64, Stopped> {
    if !has_slot(scope, slot) {
        return Err(Stopped);
    }
    Ok(scope.size(slot))
}

/// The first point: each slot has its first value.
pub fn first_point(alloc: Global, scope: &Scope) -> Result<Vec<u64>, Stopped> {
    let mut point = Vec::new(alloc);
    for _ in 0..scope.slots() {
        point.push(0)?;
    }
    Ok(point)
}

/// Steps to the next point in slot order, and answers whether there was one.
pub fn advance(scope: &Scope, point: &mut [u64]) -> Result<bool, Stopped> {
    for slot in (0..point.len()).rev() {
        let next = point[slot].wrapping_add(1);
        if next < size_at(scope, slot as u64)? {
            point[slot] = next;
            return Ok(true);
        }
        point[slot] = 0;
    }
    Ok(false)
}
