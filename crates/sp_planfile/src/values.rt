//! The lines of values.

ghost use Rattle.std.specs.Prelude.{◌≡◌, ◌++◌, OnOk, option_copied};
ghost use Rattle.sp_lines.specs.Lines.{lines_of};
ghost use Rattle.sp_planfile.specs.PlanText.{value_line, values_text};

use crate::writing::put_count;
use sp_dd::NoMemory;
use sp_lines::put;
use sp_show::decimal;
use sp_value::Values;
use std::alloc::Global;

/// Adds the lines of values, with their count, where there are any.
pub(crate) fn put_values(
    alloc: Global,
    text: &mut Vec<u8>,
    values: Option<&Values>,
) -> Result<(), NoMemory>
    ensures { OnOk result (text.new.items ≡ text.old.items ++ values_text (option_copied values.entry)) }
{
    match values {
        Some(values) => {
            put_count(text, b"values", values.as_slice().len())?;
            put_value_lines(alloc, text, values.as_slice())
        }
        None => Ok(()),
    }
}

/// Adds the lines of values.
fn put_value_lines(alloc: Global, text: &mut Vec<u8>, values: &[i128]) -> Result<(), NoMemory>
    ensures { OnOk result (text.new.items ≡ text.old.items ++ lines_of value_line values.now) }
{
    for value in values {
        let digits = decimal(alloc, *value)?;
        put(text, b"value ")?;
        put(text, digits.as_bytes())?;
        put(text, b"\n")?;
    }
    Ok(())
}
