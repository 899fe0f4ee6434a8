//! The values of a book's editions at the initial belief.

ghost use Rattle.std.specs.Prelude.{◌≡◌, IfOk};
ghost use Rattle.sp_planner.specs.Numbers.{values_at_first};

use crate::summary::first_value;
use sp_core::Book;
use sp_dd::NoMemory;
use sp_value::Values;
use std::alloc::Global;

/// The value of each edition of a book at the initial belief, in order, in ticks of 10^-9, rounded down.
pub fn opening_values(alloc: Global, book: &Book) -> Result<Values, NoMemory>
    ensures { IfOk result (λ values. values ≡ values_at_first book.now) }
{
    // what is known of each book
    let _ = book.task();
    let mut values = Values::new(alloc);
    for number in 0..book.count() {
        let Some(edition) = book.edition(number) else {
            unreachable!()
        };
        let value = first_value(alloc, edition)?;
        values.push(value)?;
    }
    Ok(values)
}
