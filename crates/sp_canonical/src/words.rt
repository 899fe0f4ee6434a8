//! Words, and brackets round one.

ghost use Rattle.std.specs.Prelude.{◌≡◌, ◌++◌, [], ◌∷◌, OnOk, cond};
ghost use Rattle.sp_spelled.specs.Signs.{text_of_signs, word, closes, space, tight};
ghost use Rattle.sp_spelled.specs.Shapes.{sign, leaf};
ghost use Rattle.sp_show.specs.Decimals.{decimal_of};
ghost use Rattle.sp_canonical.specs.Gaps.{gap_of};
ghost use Rattle.sp_spelled.specs.Words.{dd_name};

use crate::page::{Gap, Page};
use sp_dd::NoMemory;

/// A word.
#[tactic(auto, using(crate::proofs::Pieces::printed_word))]
pub fn put_word(page: &mut Page, text: &[u8], gap: Gap) -> Result<(), NoMemory>
    ensures { OnOk result (page.new ≡ page.old ++ text_of_signs (sign (word text.now) (gap_of gap) ∷ [])) }
{
    page.put(text)?;
    page.put(gap.bytes())
}

/// A closing bracket.
#[tactic(auto, using(crate::proofs::Pieces::printed_closing))]
pub fn put_closing(page: &mut Page, gap: Gap) -> Result<(), NoMemory>
    ensures { OnOk result (page.new ≡ page.old ++ text_of_signs (sign closes (gap_of gap) ∷ [])) }
{
    page.put(b")")?;
    page.put(gap.bytes())
}

/// The decimal of a number of ticks, in brackets.
#[tactic(auto, using(crate::proofs::Pieces::printed_leaf))]
pub fn put_value(page: &mut Page, ticks: i128, gap: Gap) -> Result<(), NoMemory>
    ensures { OnOk result (page.new ≡ page.old ++ text_of_signs (leaf (decimal_of ticks) (gap_of gap))) }
{
    page.put(b"(")?;
    page.put_ticks(ticks)?;
    put_closing(page, gap)
}

/// The name of a line.
pub fn put_line_name(page: &mut Page, number: usize) -> Result<(), NoMemory>
    ensures { OnOk result (page.new ≡ page.old ++ dd_name number) }
{
    page.put(b"n")?;
    page.put_number(number)
}

/// The name of a line, in brackets.
#[tactic(auto, using(crate::proofs::Pieces::printed_leaf))]
pub fn put_reference(page: &mut Page, number: usize, gap: Gap) -> Result<(), NoMemory>
    ensures { OnOk result (page.new ≡ page.old ++ text_of_signs (leaf (dd_name number) (gap_of gap))) }
{
    page.put(b"(")?;
    put_line_name(page, number)?;
    put_closing(page, gap)
}

/// What stands behind a part of a list in brackets, behind which others stand or none.
pub fn gap_if(more: bool) -> Gap
    ensures { gap_of result ≡ cond more space tight }
{
    if more { Gap::Space } else { Gap::Tight }
}
