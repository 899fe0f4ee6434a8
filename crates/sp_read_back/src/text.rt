//! The canonical text of a model, and what it means.

ghost use Rattle.std.specs.Prelude.{◌≡◌, length, IfOk};
ghost use Rattle.sp_spelled.specs.Signs.{text_of_signs};
ghost use Rattle.sp_model.specs.Kept.{IsModel};
ghost use Rattle.sp_canonical.specs.ModelSigns.{model_signs};
ghost use Rattle.sp_reader.specs.Sources.{Reads};

use crate::determined::functions_law;
use sp_canonical::model_text;
use sp_dd::NoMemory;
use sp_model::{Model, Parts};
use std::alloc::Global;

/// The canonical text of a model: who reads it finds that model, and no fault. Takes time and memory in proportion to the text
/// and the model.
pub fn canonical_text(alloc: Global, model: &Model) -> Result<Vec<u8>, NoMemory>
    ensures text { IfOk result (λ text. text.items ≡ text_of_signs (model_signs model.now)) }
    ensures meaning { IfOk result (λ text. Reads text.items model.now) }
{
    let text = model_text(alloc, model)?;
    text_law(model, text.as_slice());
    Ok(text)
}

/// A model's canonical text means that model. Goes over the model's functions once, reads nothing of the text and takes no
/// memory.
pub fn text_law(model: &Model, text: &[u8])
    requires { text.now ≡ text_of_signs (model_signs model.now) }
    ensures { Reads text.now model.now }
{
    parts_law(model.parts(), text, text.len());
}

/// The text of a model's parts, which has so many bytes: it has no more lines than bytes, so their numbers are below 2^64.
fn parts_law(parts: &Parts, text: &[u8], count: usize)
    requires model { IsModel parts.now }
    requires text { text.now ≡ text_of_signs (model_signs parts.now) }
    requires count { count ≡ length text.now }
    ensures { Reads text.now parts.now }
{
    let _ = count;
    functions_law(parts);
}
