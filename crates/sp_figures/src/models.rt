//! Models from their texts, and the values of functions at states.

ghost use Rattle.std.specs.Prelude.{◌≡◌, length};
ghost use Rattle.std.specs.Bool.{OnTrue};
ghost use Rattle.sp_dd.specs.Points.{IsPoint};

use crate::stopped::Stopped;
use sp_dd::Scope;
use sp_model::{Func, Model};
use sp_reader::read_model;
use std::alloc::Global;

/// The model of a text.
pub fn model_of(alloc: Global, text: &[u8]) -> Result<Model, Stopped> {
    read_model(alloc, text).map_err(|_| Stopped)
}

/// Adds the least return of a model, its top, and how many ticks a backup may lose.
pub fn push_range(text: &mut String, model: &Model) -> Result<(), Stopped> {
    let (least, top, lost) = (model.least_return(), model.top(), model.tick_bound());
    Ok(writeln!(text, "range {least} {top} {lost}")?)
}

/// A point whose state has that number. The last variable runs fastest.
fn state_point(alloc: Global, scope: &Scope, number: u64) -> Result<Vec<u64>, Stopped> {
    let mut point = vec![in alloc; 0u64; scope.slots() as usize]?;
    let mut rest = number;
    for variable in (0..scope.variables()).rev() {
        let slot = variable.wrapping_mul(2);
        if slot >= scope.slots() {
            return Err(Stopped);
        }
        let size = scope.size(slot).max(1);
        if let Some(coordinate) = point.get_mut(slot as usize) {
            *coordinate = rest % size;
        }
        rest = rest / size;
    }
    Ok(point)
}

/// Whether there is a coordinate for each slot, below its size.
fn is_point(scope: &Scope, point: &[u64]) -> bool
    ensures { OnTrue result (IsPoint scope.now.sizes point.now) }
{
    point.len() as u64 == scope.slots() && are_below(scope, point)
}

/// Whether each coordinate is below its slot's size.
fn are_below(scope: &Scope, point: &[u64]) -> bool
    requires { length point.now ≡ length scope.now.sizes }
    ensures { OnTrue result (IsPoint scope.now.sizes point.now) }
{
    for slot in 0..point.len() {
        if point[slot] >= scope.size(slot as u64) {
            return false;
        }
    }
    true
}

/// The value at the state of that number.
fn value_at_state(alloc: Global, func: &Func, number: u64) -> Result<i128, Stopped> {
    let point = state_point(alloc, func.scope(), number)?;
    if !is_point(func.scope(), point.as_slice()) {
        return Err(Stopped);
    }
    Ok(func.value_at(point.as_slice()))
}

/// Adds the values of a function at all states, and ends the line.
pub fn push_values(
    text: &mut String,
    alloc: Global,
    model: &Model,
    func: &Func,
) -> Result<(), Stopped> {
    for number in 0..model.state_count() {
        let value = value_at_state(alloc, func, number)?;
        write!(text, " {value}")?;
    }
    Ok(text.push_str("\n")?)
}
