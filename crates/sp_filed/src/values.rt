//! The lines of values.

ghost use Rattle.std.specs.Prelude.{◌≡◌, ◌≢◌, ℤ, IfOk, MatchOption};
ghost use Rattle.sp_planfile.specs.PlanText.{value_line};
ghost use Rattle.sp_planfile.specs.Form.{IsTickValue};

use sp_dd::NoMemory;
use sp_lex::ticks;
use sp_lines::behind;
use sp_show::decimal;
use std::alloc::Global;

/// The greatest magnitude of a value in ticks.
const MOST: u128 = 1_000_000_000_000_000_000;

/// The value of which this is the line, in ticks of 10^-9.
pub(crate) fn value_at(alloc: Global, line: &[u8]) -> Result<Option<i128>, NoMemory>
    ensures { IfOk result (λ found. MatchOption found ((z : ℤ) → IsTickValue z → line.now ≢ value_line z) (λ z. IsTickValue z × (line.now ≡ value_line z))) }
{
    let Some(word) = behind(line, b"value ") else {
        return Ok(None);
    };
    let Ok(value) = ticks(word) else {
        return Ok(None);
    };
    if value.unsigned_abs() > MOST {
        return Ok(None);
    }
    let canonical = decimal(alloc, value)?;
    if canonical.as_bytes() == word {
        Ok(Some(value))
    } else {
        Ok(None)
    }
}
