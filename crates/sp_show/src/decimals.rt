//! Ticks as decimals.

ghost use Rattle.std.specs.Prelude.{◌≡◌, ◌++◌, IfOk, OnOk, string_bytes};
ghost use Rattle.sp_show.specs.Decimals.{decimal_of, sign_text};

use sp_dd::NoMemory;
use std::alloc::Global;

/// The decimal of a number of ticks of 10^-9: `-` where it is negative, the whole part, a point, and nine digits.
pub fn decimal(alloc: Global, ticks: i128) -> Result<String, NoMemory>
    ensures { IfOk result (λ text. string_bytes text ≡ decimal_of ticks) }
{
    let mut text = String::new(alloc);
    push_decimal(&mut text, ticks)?;
    Ok(text)
}

/// Adds the decimal of a number of ticks to a text.
pub fn push_decimal(text: &mut String, ticks: i128) -> Result<(), NoMemory>
    ensures { OnOk result (string_bytes text.new ≡ string_bytes text.old ++ decimal_of ticks) }
{
    let magnitude = ticks.unsigned_abs();
    let whole = magnitude / 1_000_000_000;
    let fraction = magnitude % 1_000_000_000;
    let sign = sign_of(ticks);
    write!(text, "{sign}{whole}.{fraction:09}")?;
    Ok(())
}

/// What stands before the digits.
fn sign_of(ticks: i128) -> &'static str
    ensures { result.now ≡ sign_text ticks }
{
    if ticks < 0 { "-" } else { "" }
}
