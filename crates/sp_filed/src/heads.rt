//! The head and the model's lines of a plan file.

ghost use Rattle.std.specs.Prelude.{◌≡◌, ◌≢◌, ℕ, Bool, ◌++◌, ◌∷◌, List, length, codes, Err, IfOk, MatchOption};
ghost use Rattle.sp_model.specs.declared.parts.Parts.{Parts};
ghost use Rattle.sp_planfile.specs.PlanText.{head_text, version_line};
ghost use Rattle.sp_planfile.specs.Form.{AreModelLines};
ghost use Rattle.sp_planfile.specs.ModelText.{model_bytes};
ghost use Rattle.sp_filed.specs.Files.{IsModelText, StopsAtHead};

use sp_canonical::model_text;
use sp_dd::NoMemory;
use sp_lines::{behind, first_line};
use sp_model::Model;
use sp_reader::{ReaderError, read_model};
use std::alloc::Global;

/// Whether the first line is that of version 2, and what stands behind the line `model`; or how many bytes are left.
pub(crate) fn head_first(source: &[u8]) -> Result<(bool, &[u8]), u64>
    ensures ok { IfOk result (λ r. source.now ≡ head_text r.0 ++ r.1.now) }
    ensures err { (left : ℕ) → result ≡ Err left → StopsAtHead source.now left }
{
    let Some((has_values, rest)) = version_first(source) else {
        return Err(source.len() as u64);
    };
    match behind(rest, b"model\n") {
        Some(lines) => Ok((has_values, lines)),
        None => Err(rest.len() as u64),
    }
}

/// Whether the first line is that of version 2, and what stands behind it.
fn version_first(source: &[u8]) -> Option<(bool, &[u8])>
    ensures { MatchOption result ((b : Bool) (rest : List ℕ) → source.now ≢ version_line b ++ 10 ∷ rest) (λ r. source.now ≡ version_line r.0 ++ 10 ∷ r.1.now) }
{
    if let Some(rest) = behind(source, b"perseus-plan 2\n") {
        return Some((true, rest));
    }
    match behind(source, b"perseus-plan 1\n") {
        Some(rest) => Some((false, rest)),
        None => None,
    }
}

/// The lines before the first that ends the model, and what stands behind that one.
pub(crate) fn body_first(text: &[u8]) -> Option<(&[u8], &[u8])>
    ensures { MatchOption result ((body more : List ℕ) → AreModelLines body → text.now ≢ body ++ (codes "endmodel\n" ++ more)) (λ r. AreModelLines r.0.now × (text.now ≡ r.0.now ++ (codes "endmodel\n" ++ r.1.now))) }
{
    let mut rest = text;
    while let Some((line, more)) = first_line(rest) {
        if line == b"endmodel".as_slice() {
            return Some((&text[..text.len() - rest.len()], more));
        }
        rest = more;
    }
    None
}

/// The model whose canonical text these lines are.
pub(crate) fn model_of(alloc: Global, body: &[u8]) -> Result<Option<Model>, NoMemory>
    ensures { IfOk result (λ found. MatchOption found ((p : Parts) → ¬ (IsModelText body.now p)) (λ p. IsModelText body.now p)) }
{
    match read_model(alloc, body) {
        Ok(model) => canonical(alloc, model, body),
        Err(ReaderError::Refused { .. }) => Ok(None),
        Err(ReaderError::NoMemory) => Err(NoMemory),
    }
}

/// The model, where these lines are its canonical text.
fn canonical(alloc: Global, model: Model, body: &[u8]) -> Result<Option<Model>, NoMemory>
    ensures { IfOk result (λ found. MatchOption found (body.now ≢ model_bytes model) (λ p. (p ≡ model) × (body.now ≡ model_bytes model))) }
{
    let text = model_text(alloc, &model)?;
    if text.as_slice() == body {
        Ok(Some(model))
    } else {
        Ok(None)
    }
}
