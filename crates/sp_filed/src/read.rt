//! Reading plan files of both versions.

ghost use Rattle.std.specs.Prelude.{◌≡◌, ℕ, None, Err, IfOk};
ghost use Rattle.std.specs.Arc.{arc_value};
ghost use Rattle.sp_filed.specs.declared.error.PlanKind.{PlanKind};
ghost use Rattle.sp_filed.specs.declared.error.PlanError.TheVariants as errors;
ghost use Rattle.sp_filed.specs.declared.read.Unread.TheVariants as unread;
ghost use Rattle.sp_filed.specs.Files.{IsPlanFile, IsFault, IsFirstVersionFault, IsFaultBefore, IsSampleReason, StopsInRest};
ghost use Rattle.sp_filed.specs.Tails.{IsReadBehindModel};

use crate::error::{PlanError, PlanKind};
use crate::heads::{body_first, head_first, model_of};
use crate::moves::Unsampled;
use crate::tasks::{Filed, read_behind_model};
use sp_dd::NoMemory;
use sp_lines::behind;
use sp_model::Model;
use sp_session::Transcript;
use sp_value::Run;
use std::alloc::Global;

/// What a plan file of version 1 or 2 tells; values are there in version 2 alone.
pub fn read_any(alloc: Global, source: &[u8]) -> Result<Filed, PlanError>
    ensures ok { IfOk result (λ f. IsPlanFile source.now (arc_value f.run.task) f.run.events f.values f.transcript) }
    ensures err { (at : ℕ) (kind : PlanKind) → result ≡ Err (errors.Fault at kind) → IsFault source.now at kind }
{
    match read_whole(alloc, source) {
        Ok(filed) => Ok(filed),
        Err(Unread::At(left, kind)) => Err(PlanError::Fault {
            at: (source.len() as u64).saturating_sub(left),
            kind,
        }),
        Err(Unread::NoMemory) => Err(PlanError::NoMemory),
    }
}

/// What a plan file of version 1 tells: its run and its transcript. One of version 2 is at fault at its first line.
pub fn read_plan(alloc: Global, source: &[u8]) -> Result<(Run, Transcript), PlanError>
    ensures ok { IfOk result (λ r. IsPlanFile source.now (arc_value r.0.task) r.0.events None r.1) }
    ensures err { (at : ℕ) (kind : PlanKind) → result ≡ Err (errors.Fault at kind) → IsFirstVersionFault source.now at kind }
{
    match behind(source, b"perseus-plan 2\n") {
        Some(_) => Err(PlanError::Fault {
            at: 0,
            kind: PlanKind::Shape,
        }),
        None => match read_any(alloc, source) {
            Ok(
                Filed {
                    run,
                    transcript,
                    ..
                },
            ) => Ok((run, transcript)),
            Err(error) => Err(error),
        },
    }
}

/// Why bytes are no plan file: so many are left from the first line at fault on.
#[derive(Clone, Copy, Drop)]
enum Unread {
    At(u64, PlanKind),
    NoMemory,
}

/// The same, with the bytes that are left.
fn read_whole(alloc: Global, source: &[u8]) -> Result<Filed, Unread>
    ensures ok { IfOk result (λ f. IsPlanFile source.now (arc_value f.run.task) f.run.events f.values f.transcript) }
    ensures err { (left : ℕ) (kind : PlanKind) → result ≡ Err (unread.At left kind) → IsFaultBefore source.now left kind }
{
    let (has_values, lines) = match head_first(source) {
        Ok(found) => found,
        Err(left) => return Err(Unread::At(left, PlanKind::Shape)),
    };
    let Some((body, rest)) = body_first(lines) else {
        return Err(Unread::At(0, PlanKind::Shape));
    };
    let found = match model_of(alloc, body) {
        Ok(found) => found,
        Err(NoMemory) => return Err(Unread::NoMemory),
    };
    match found {
        Some(model) => match read_rest(alloc, model, rest, has_values) {
            Ok(filed) => Ok(filed),
            Err(unread) => Err(unread),
        },
        None => Err(Unread::At(lines.len() as u64 + 6, PlanKind::Model)),
    }
}

/// What stands behind the model.
fn read_rest(alloc: Global, model: Model, text: &[u8], has_values: bool) -> Result<Filed, Unread>
    ensures ok { IfOk result (λ f. IsReadBehindModel has_values model text.now (arc_value f.run.task) f.run.events f.values f.transcript) }
    ensures err { (left : ℕ) (kind : PlanKind) → result ≡ Err (unread.At left kind) → StopsInRest has_values model text.now left kind }
{
    match read_behind_model(alloc, model, text, has_values) {
        Ok(filed) => Ok(filed),
        Err(stop) => Err(unread_for(stop)),
    }
}

/// The reason behind the model, as a fault.
fn unread_for(stop: Unsampled) -> Unread
    ensures { (left : ℕ) (kind : PlanKind) → result ≡ unread.At left kind → IsSampleReason stop left kind }
{
    match stop {
        Unsampled::Shape(left) => Unread::At(left, PlanKind::Shape),
        Unsampled::Sample(left) => Unread::At(left, PlanKind::Sample),
        Unsampled::NoMemory => Unread::NoMemory,
    }
}
