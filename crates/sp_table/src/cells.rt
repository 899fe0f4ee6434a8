//! Values of functions at points that are named by their places among the cells of other widths.

ghost use Rattle.std.specs.Prelude.{◌≡◌, ◌<◌, slice_set};
ghost use Rattle.sp_dd.specs.Points.{point_at};
ghost use Rattle.sp_dd.specs.Func.{value_of, size_of};
ghost use Rattle.sp_table.specs.Widths.{AreWidths};

use crate::Table;
use crate::places::{moved, moved_with};

/// The value at the point at a place.
pub(crate) fn value_in(f: &Table, from: &[u64], k: usize) -> i128
    requires { AreWidths f.now.shape from.now }
    ensures { result ≡ value_of f.now (point_at from.now k) }
{
    f.cells[moved(f.widths.as_slice(), from, k)]
}

/// The value at the point at a place, with another value in one slot.
pub(crate) fn value_with(f: &Table, from: &[u64], k: usize, slot: usize, value: usize) -> i128
    requires from { AreWidths f.now.shape from.now }
    requires within { value < size_of f.now.shape slot }
    ensures { result ≡ value_of f.now (slice_set (point_at from.now k) slot value) }
{
    f.cells[moved_with(f.widths.as_slice(), from, k, slot, value)]
}
