//! Declarations.

ghost use Rattle.std.specs.Prelude.{◌≡◌, [], ◌<◌, ◌≤◌, ◌^◌, ◌*◌, length, IfOk, OnOk};
ghost use Rattle.sp_declarations.specs.Steps.{GivesOrRunsOut, Leaves, unless_refused};
ghost use Rattle.sp_declarations.specs.Declarations as spec;
ghost use Rattle.sp_names.specs.Names.{with_name};
ghost use Rattle.sp_trees.specs.Words.{text};

use crate::error::{ModelError, refuse};
use sp_lex::Span;
use sp_model::{Decl, Decls, Name};
use sp_names::Names;
use sp_syntax::{Declaration, Text};
use sp_trees::{ModelKind, Refusal, number_of, refused_if, text};
use std::alloc::Global;

/// The most variables of a sort, and the most choices of a value for each of them.
#[derive(Clone, Copy, Debug, Drop)]
pub struct Limits {
    pub most: u64,
    pub points: u64,
}

/// The most values of a variable.
const MOST_VALUES: u64 = 64;

/// What was declared of a sort so far.
#[derive(Drop)]
pub struct Read<'a> {
    /// The names of both sorts.
    pub names: Names<'a>,
    pub decls: Decls,
    /// How many choices of a value for each of them there are.
    pub points: u64,
}

/// The declared variables and observation variables.
#[derive(Drop)]
pub struct Declared {
    pub variables: Decls,
    pub sights: Decls,
}

/// The limits of state variables.
fn variable_limits() -> Limits
    ensures { result ≡ spec.variable_limits }
{
    Limits {
        most: 24,
        points: 16_777_216,
    }
}

/// The limits of observation variables.
fn sight_limits() -> Limits
    ensures { result ≡ spec.sight_limits }
{
    Limits {
        most: 8,
        points: 4096,
    }
}

/// What refuses a value's word behind these values.
fn value_refusal(values: &[Name], word: &[u8], at: u64) -> Option<Refusal>
    ensures { result ≡ spec.value_refusal values.now word.now at }
{
    if number_of(values, word).is_some() {
        return Some(Refusal {
            at,
            kind: ModelKind::RepeatedName,
        });
    }
    refused_if(
        values.len() as u64 == MOST_VALUES,
        at,
        ModelKind::TooMany { limit: MOST_VALUES },
    )
}

/// One more value.
fn value(
    alloc: Global,
    source: &[u8],
    values: &mut sp_model::Names,
    span: Span,
) -> Result<(), ModelError>
    ensures { Leaves (spec.value source.now values.old span) result values.new }
{
    let word = text(source, span);
    refuse(value_refusal(values.as_slice(), word, span.start))?;
    let name = Name::new(alloc, word)?;
    values.push(name)?;
    Ok(())
}

/// The values of a declaration.
#[tactic(auto, using(crate::proofs::StepLemmas::turn_ok, crate::proofs::StepLemmas::turn_err, crate::proofs::StepLemmas::turns_over), unfolding(crate::specs::Declarations::values))]
fn values(alloc: Global, source: &[u8], words: &[Span]) -> Result<sp_model::Names, ModelError>
    ensures { GivesOrRunsOut (spec.values source.now words.now) result }
{
    let mut values = sp_model::Names::new(alloc);
    for span in words {
        value(alloc, source, &mut values, *span)?;
    }
    Ok(values)
}

/// What refuses a declaration at its bracket.
fn limit_refusal(limits: Limits, read: &Read<'_>, next: &Declaration) -> Option<Refusal>
    requires { limits.points < 2 ^ 32 }
    ensures { result ≡ spec.limit_refusal limits read.now next.now }
{
    let at = next.left.start;
    if read.decls.len() == limits.most {
        return Some(Refusal {
            at,
            kind: ModelKind::TooMany { limit: limits.most },
        });
    }
    refused_if(
        limits.points < read.points.saturating_mul(next.values.len()),
        at,
        ModelKind::TooMany {
            limit: limits.points,
        },
    )
}

/// Whether a declaration is within the limits.
fn within_limits(limits: Limits, read: &Read<'_>, next: &Declaration) -> Result<(), ModelError>
    requires { limits.points < 2 ^ 32 }
    ensures refused { GivesOrRunsOut (unless_refused (spec.limit_refusal limits read.now next.now)) result }
    ensures fits { IfOk result (λ _. read.now.points * length next.now.values ≤ limits.points) }
{
    refuse(limit_refusal(limits, read, next))
}

/// Puts the name of a declaration behind those that were declared.
fn declare<'a>(
    names: &mut Names<'a>,
    source: &'a [u8],
    next: &Declaration,
) -> Result<(), ModelError>
    ensures refused { GivesOrRunsOut (unless_refused (spec.name_refusal source.now names.old next.now)) result }
    ensures names { OnOk result (names.new ≡ with_name names.old (text source.now next.now.name)) }
{
    let is_new = names.declare(text(source, next.name))?;
    refuse(refused_if(!is_new, next.name.start, ModelKind::RepeatedName))
}

/// The name and the values of a declaration.
fn decl_of(alloc: Global, source: &[u8], next: &Declaration) -> Result<Decl, ModelError>
    ensures { GivesOrRunsOut (spec.decl_of source.now next.now) result }
{
    let values = values(alloc, source, next.values.as_slice())?;
    let name = Name::new(alloc, text(source, next.name))?;
    Ok(Decl { name, values })
}

/// One more declaration.
#[tactic(auto, using(crate::proofs::DeclarationLemmas::limits_err, crate::proofs::DeclarationLemmas::name_err, crate::proofs::DeclarationLemmas::values_err, crate::proofs::DeclarationLemmas::declaration_ok))]
fn declaration<'a>(
    alloc: Global,
    source: &'a [u8],
    limits: Limits,
    read: &mut Read<'a>,
    next: &Declaration,
) -> Result<(), ModelError>
    requires { limits.points < 2 ^ 32 }
    ensures { Leaves (spec.declaration source.now limits read.old next.now) result read.new }
{
    within_limits(limits, read, next)?;
    declare(&mut read.names, source, next)?;
    let decl = decl_of(alloc, source, next)?;
    read.points *= next.values.len();
    read.decls.push(decl)?;
    Ok(())
}

/// The declarations of a sort, behind those names.
#[tactic(auto, using(crate::proofs::StepLemmas::turn_ok, crate::proofs::StepLemmas::turn_err, crate::proofs::StepLemmas::turns_over))]
fn declarations<'a>(
    alloc: Global,
    source: &'a [u8],
    limits: Limits,
    names: Names<'a>,
    list: &[Declaration],
) -> Result<Read<'a>, ModelError>
    requires { limits.points < 2 ^ 32 }
    ensures { GivesOrRunsOut (spec.declarations source.now limits names.entry list.now) result }
{
    let mut read = Read {
        names,
        decls: Decls::new(alloc),
        points: 1,
    };
    for next in list {
        declaration(alloc, source, limits, &mut read, next)?;
    }
    Ok(read)
}

/// The declared variables.
fn variables_of<'a>(alloc: Global, source: &'a [u8], text: &Text) -> Result<Read<'a>, ModelError>
    ensures { GivesOrRunsOut (spec.declarations source.now spec.variable_limits [] text.now.variables.declarations) result }
{
    declarations(
        alloc,
        source,
        variable_limits(),
        Names::new(alloc),
        text.variables.declarations.as_slice(),
    )
}

/// The declared observation variables, behind those names.
fn sights_of<'a>(
    alloc: Global,
    source: &'a [u8],
    names: Names<'a>,
    text: &Text,
) -> Result<Read<'a>, ModelError>
    ensures { GivesOrRunsOut (spec.declarations source.now spec.sight_limits names.entry text.now.observations.declarations) result }
{
    declarations(
        alloc,
        source,
        sight_limits(),
        names,
        text.observations.declarations.as_slice(),
    )
}

/// The declarations of a text, or the first refusal among them.
#[tactic(auto, using(crate::proofs::DeclarationLemmas::variables_err, crate::proofs::DeclarationLemmas::sights_err, crate::proofs::DeclarationLemmas::declarations_ok))]
pub fn declarations_of(alloc: Global, source: &[u8], text: &Text) -> Result<Declared, ModelError>
    ensures { GivesOrRunsOut (spec.declarations_of source.now text.now) result }
{
    let variables = variables_of(alloc, source, text)?;
    let sights = sights_of(alloc, source, variables.names, text)?;
    Ok(Declared {
        variables: variables.decls,
        sights: sights.decls,
    })
}
