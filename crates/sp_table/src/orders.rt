//! Calls that compare values over all points.

ghost use Rattle.std.specs.Prelude.{◌<◌, length};
ghost use Rattle.sp_dd.specs.Operations.{IsLeast, IsGreatest};
ghost use Rattle.sp_table.specs.Cells.{IsLeastCell, IsGreatestOf};

use crate::Table;

/// The least value over all points. Takes no memory.
pub fn least(f: &Table) -> i128
    ensures { IsLeast f.now result }
{
    least_of(f.cells.as_slice())
}

/// The greatest value over all points. Takes no memory.
pub fn greatest(f: &Table) -> i128
    ensures { IsGreatest f.now result }
{
    greatest_of(f.cells.as_slice())
}

/// The least of some numbers.
fn least_of(cells: &[i128]) -> i128
    requires { 0 < length cells.now }
    ensures { IsLeastCell cells.now (length cells.now) result }
{
    let mut least = cells[0];
    for cell in cells {
        least = least.min(*cell);
    }
    least
}

/// The greatest of some numbers.
fn greatest_of(cells: &[i128]) -> i128
    requires { 0 < length cells.now }
    ensures { IsGreatestOf cells.now (length cells.now) result }
{
    let mut greatest = cells[0];
    for cell in cells {
        greatest = greatest.max(*cell);
    }
    greatest
}
