//! Numbers and references.

ghost use Rattle.std.specs.Prelude.{◌≡◌, IfOk};
ghost use Rattle.sp_trees.specs.Single as spec;

use crate::env::{Dds, Shared};
use crate::judged::Judged;
use crate::refusal::{ModelKind, Refusal};
use crate::slots::Slots;
use crate::words::text;
use sp_dd::{NoMemory, Scope};
use sp_lex::{NumError, Span, ticks};
use sp_model::functions::constant;
use std::alloc::Global;

fn number_kind(error: NumError) -> ModelKind
    ensures { result ≡ spec.number_kind error }
{
    match error {
        NumError::Shape => ModelKind::BadNumber,
        NumError::TooFine => ModelKind::TooFine,
        NumError::TooLarge => ModelKind::TooLarge,
    }
}

/// A number: the same value everywhere.
pub(crate) fn number(
    alloc: Global,
    scope: &Scope,
    source: &[u8],
    word: Span,
) -> Result<Judged, NoMemory>
    ensures { IfOk result (λ j. j ≡ spec.number scope.now source.now word) }
{
    let outcome = match ticks(text(source, word)) {
        Ok(value) => Ok(Shared::new(alloc, constant(alloc, scope, value)?)?),
        Err(error) => Err(Refusal {
            at: word.start,
            kind: number_kind(error),
        }),
    };
    Ok(Judged {
        mentions: Slots::none(),
        outcome,
    })
}

/// The function of a dd.
pub(crate) fn reference(
    dds: &Dds<'_>,
    allowed: Slots,
    source: &[u8],
    word: Span,
) -> Result<Judged, NoMemory>
    ensures { IfOk result (λ j. j ≡ spec.reference dds.now allowed source.now word) }
{
    match dds.find(text(source, word)) {
        None => Ok(Judged {
            mentions: Slots::none(),
            outcome: Err(Refusal {
                at: word.start,
                kind: ModelKind::UnknownName,
            }),
        }),
        Some(dd) => {
            let outcome = if dd.mentions.is_among(allowed) {
                Ok(dd.func.again()?)
            } else {
                Err(Refusal {
                    at: word.start,
                    kind: ModelKind::BadScope,
                })
            };
            Ok(Judged {
                mentions: dd.mentions,
                outcome,
            })
        }
    }
}
