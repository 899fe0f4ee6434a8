//! The lines of declarations.

ghost use Rattle.std.specs.Prelude.{◌≡◌, ◌++◌, OnOk};
ghost use Rattle.sp_spelled.specs.Signs.{text_of_signs};
ghost use Rattle.sp_spelled.specs.Shapes.{declaration_signs, closed_words};
ghost use Rattle.sp_canonical.specs.Gaps.{gap_of};
ghost use Rattle.sp_canonical.specs.ModelSigns.{declarations_line, declarations_signs};

use crate::page::{Gap, Page};
use crate::words::{gap_if, put_closing, put_word};
use sp_dd::NoMemory;
use sp_model::{Decl, Name};

/// The line of declarations behind that key.
#[tactic(auto, using(crate::proofs::Pieces::printed_group))]
pub fn put_declarations(page: &mut Page, key: &[u8], decls: &[Decl]) -> Result<(), NoMemory>
    ensures { OnOk result (page.new ≡ page.old ++ text_of_signs (declarations_line key.now decls.now)) }
{
    page.put(b"(")?;
    put_word(page, key, Gap::Space)?;
    put_each(page, decls)?;
    put_closing(page, Gap::Line)
}

/// One declaration behind another.
fn put_each(page: &mut Page, decls: &[Decl]) -> Result<(), NoMemory>
    ensures { OnOk result (page.new ≡ page.old ++ text_of_signs (declarations_signs decls.now)) }
{
    for i in 0..decls.len() {
        put_declaration(page, &decls[i], gap_if(i + 1 < decls.len()))?;
    }
    Ok(())
}

/// A declaration.
#[tactic(auto, using(crate::proofs::Pieces::printed_declaration))]
fn put_declaration(page: &mut Page, decl: &Decl, gap: Gap) -> Result<(), NoMemory>
    ensures { OnOk result (page.new ≡ page.old ++ text_of_signs (declaration_signs decl.now.name decl.now.values (gap_of gap))) }
{
    page.put(b"(")?;
    put_word(page, decl.name.bytes(), Gap::Space)?;
    put_values(page, decl.values.as_slice(), gap)
}

/// Words with a space between them, and the bracket behind the last.
fn put_values(page: &mut Page, values: &[Name], gap: Gap) -> Result<(), NoMemory>
    ensures { OnOk result (page.new ≡ page.old ++ text_of_signs (closed_words values.now (gap_of gap))) }
{
    for i in 0..values.len() {
        put_word(page, values[i].bytes(), gap_if(i + 1 < values.len()))?;
    }
    put_closing(page, gap)?;
    Ok(())
}
