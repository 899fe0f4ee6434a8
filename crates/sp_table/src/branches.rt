//! The call that joins one function for each value of a slot.

ghost use Rattle.std.specs.Prelude.{◌≡◌, ◌<◌, ◌^◌, pos, length, map, All, IfOk, slice_index, slice_index_or};
ghost use Rattle.std.specs.List.{range_with_len};
ghost use Rattle.sp_dd.specs.Points.{product, point_at};
ghost use Rattle.sp_dd.specs.Func.{size_of, value_of};
ghost use Rattle.sp_dd.specs.Operations.{everywhere, part_chosen};
ghost use Rattle.sp_table.specs.Widths.{ArePartWidths, IsPartFrame};

use crate::Table;
use crate::cells::value_in;
use crate::frames::{joined, ones, room};
use crate::places::digit_of;
use sp_dd::{NoMemory, Scope};
use std::alloc::{AllocError, Global};

/// The function that is the part of the slot's value.
pub fn branch(alloc: Global, scope: &Scope, slot: u64, parts: &[Table]) -> Result<Table, NoMemory>
    requires slot { slot < length scope.now.sizes }
    requires parts { length parts.now ≡ size_of scope.now slot }
    requires scopes { All (λ part. part.shape ≡ scope.now) parts.now }
    ensures { IfOk result (λ r. r ≡ part_chosen scope.now slot parts.now) }
{
    let widths = part_widths(alloc, scope, slot, parts)?;
    let to = widths.as_slice();
    let count = room(to)?;
    let cells = part_values(alloc, scope, parts, to, count, slot as usize)?;
    Ok(Table {
        scope: *scope,
        widths,
        cells,
    })
}

/// Widths of the slot and all that some part mentions.
fn part_widths(
    alloc: Global,
    scope: &Scope,
    slot: u64,
    parts: &[Table],
) -> Result<Vec<u64>, AllocError>
    requires slot { slot < length scope.now.sizes }
    requires scopes { All (λ part. part.shape ≡ scope.now) parts.now }
    ensures { IfOk result (λ v. IsPartFrame scope.now slot parts.now v.items) }
{
    let mut widths = ones(alloc, scope.slots() as usize)?;
    for part in parts {
        widths = joined(alloc, widths.as_slice(), part)?;
    }
    widths[slot as usize] = scope.size(slot);
    Ok(widths)
}

/// The values of the parts at each point of some widths.
fn part_values(
    alloc: Global,
    scope: &Scope,
    parts: &[Table],
    widths: &[u64],
    count: usize,
    slot: usize,
) -> Result<Vec<i128>, AllocError>
    requires widths { ArePartWidths scope.now slot parts.now widths.now }
    ensures { IfOk result (λ c. c.items ≡ map (λ k. value_of (slice_index_or parts.now (slice_index (point_at widths.now k) slot) (everywhere scope.now (pos 0))) (point_at widths.now k)) (range_with_len 0 count)) }
{
    let mut cells = Vec::with_capacity(alloc, count)?;
    for k in 0..count {
        let part = &parts[digit_of(widths, k, slot)];
        cells.push(value_in(part, widths, k))?;
    }
    Ok(cells)
}
