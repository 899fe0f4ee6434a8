//! Widths for the answers of calls.

ghost use Rattle.std.specs.Prelude.{◌≡◌, ◌<◌, ◌^◌, length, map, max, replicate, IfOk};
ghost use Rattle.std.specs.List.{zip};
ghost use Rattle.sp_dd.specs.Points.{product};
ghost use Rattle.sp_table.specs.Widths.{AreWidthsOf, IsFrame, IsJoin, IsSlotFrame};

use crate::Table;
use crate::places::count_of;
use sp_dd::NoMemory;
use std::alloc::{AllocError, Global};

/// As many widths of 1.
pub(crate) fn ones(alloc: Global, count: usize) -> Result<Vec<u64>, AllocError>
    ensures { IfOk result (λ v. v.items ≡ replicate count 1) }
{
    vec![in alloc; 1u64; count]
}

/// A function's own widths.
pub(crate) fn own_widths(alloc: Global, f: &Table) -> Result<Vec<u64>, AllocError>
    ensures { IfOk result (λ v. IsFrame f.now v.items) }
{
    let widths = copied_widths(alloc, f.widths.as_slice())?;
    Ok(widths)
}

/// The widths of all slots that the given ones or a function's mention.
pub(crate) fn joined(alloc: Global, widths: &[u64], f: &Table) -> Result<Vec<u64>, AllocError>
    requires { AreWidthsOf widths.now f.now.shape.sizes }
    ensures { IfOk result (λ v. IsJoin f.now widths.now v.items) }
{
    let widths = greater(alloc, widths, f.widths.as_slice())?;
    Ok(widths)
}

/// The greater of each two widths.
fn greater(alloc: Global, f: &[u64], g: &[u64]) -> Result<Vec<u64>, AllocError>
    ensures { IfOk result (λ v. v.items ≡ map (λ p. max p.0 p.1) (zip f.now g.now)) }
{
    f.iter().zip(g).map(|(a, b)| (*a).max(*b)).collect(alloc)
}

/// Widths of all slots that one of two functions mentions.
pub(crate) fn widths_of_two(alloc: Global, f: &Table, g: &Table) -> Result<Vec<u64>, AllocError>
    requires { f.now.shape ≡ g.now.shape }
    ensures left { IfOk result (λ v. IsFrame f.now v.items) }
    ensures right { IfOk result (λ v. IsFrame g.now v.items) }
{
    let own = own_widths(alloc, f)?;
    let widths = joined(alloc, own.as_slice(), g)?;
    Ok(widths)
}

/// A function's own widths without one slot.
pub(crate) fn slot_widths(alloc: Global, f: &Table, slot: u64) -> Result<Vec<u64>, AllocError>
    requires { slot < length f.now.shape.sizes }
    ensures { IfOk result (λ v. IsSlotFrame f.now slot v.items) }
{
    let mut widths = own_widths(alloc, f)?;
    widths[slot as usize] = 1;
    Ok(widths)
}

/// Widths of all slots but one that one of two functions mentions.
pub(crate) fn slot_widths_of_two(
    alloc: Global,
    f: &Table,
    g: &Table,
    slot: u64,
) -> Result<Vec<u64>, AllocError>
    requires scopes { f.now.shape ≡ g.now.shape }
    requires slot { slot < length f.now.shape.sizes }
    ensures left { IfOk result (λ v. IsSlotFrame f.now slot v.items) }
    ensures right { IfOk result (λ v. IsSlotFrame g.now slot v.items) }
{
    let mut widths = widths_of_two(alloc, f, g)?;
    widths[slot as usize] = 1;
    Ok(widths)
}

/// The same widths once more.
pub(crate) fn copied_widths(alloc: Global, widths: &[u64]) -> Result<Vec<u64>, AllocError>
    ensures { IfOk result (λ v. v.items ≡ widths.now) }
{
    widths.to_vec(alloc)
}

/// How many cells these widths have. No memory has room for 2^63.
pub(crate) fn room(widths: &[u64]) -> Result<usize, NoMemory>
    ensures value { IfOk result (λ n. n ≡ product widths.now) }
    ensures fits { IfOk result (λ n. n < 2 ^ 63) }
{
    count_of(widths).ok_or(NoMemory)
}
