//! Whole texts.

ghost use Rattle.std.specs.Prelude.{◌≡◌, ◌++◌, [], ◌∷◌, IfOk, OnOk, All};
ghost use Rattle.sp_dd.specs.Func.{IsScope};
ghost use Rattle.sp_model.specs.Problem.{twice_each, sizes_of};
ghost use Rattle.sp_model.specs.Kept.{IsModel};
ghost use Rattle.sp_trees.specs.Good.{shape_for};
ghost use Rattle.sp_checks.specs.Kept.{IsReadingState};
ghost use Rattle.sp_checks.specs.Sections as spec;
ghost use Rattle.sp_declarations.specs.Steps.{GivesOrRunsOut, Leaves, in_turn};
ghost use Rattle.sp_checks.specs.Source.{HasName, HasWords, IsTextOf};
ghost use Rattle.sp_checks.specs.Meaning.{meaning};
ghost use Rattle.sp_checks.specs.Answers.{AnswersText};

use crate::finish::finish;
use crate::sections::section;
use crate::state::{Drafts, State};
use sp_dd::{Ids, NoMemory, Scope};
use sp_declarations::{Declared, ModelError, declarations_of};
use sp_lex::tokens_by_place;
use sp_model::{Decl, Model, Parts};
use sp_names::Names;
use sp_syntax::{Section, Text};
use sp_trees::{Dds, Env};
use std::alloc::Global;

/// A number twice.
fn push_pair(sizes: &mut Ids, size: u64) -> Result<(), NoMemory>
    ensures { OnOk result (sizes.new ≡ sizes.old ++ size ∷ size ∷ []) }
{
    sizes.push(size)?;
    sizes.push(size)?;
    Ok(())
}

/// Each number of values twice.
#[tactic(auto, using(crate::proofs::StartLemmas::twice_more, crate::proofs::StartLemmas::twice_all, crate::proofs::StartLemmas::twice_none))]
fn push_twice(sizes: &mut Ids, decls: &[Decl]) -> Result<(), NoMemory>
    ensures { OnOk result (sizes.new ≡ sizes.old ++ twice_each (sizes_of decls.now)) }
{
    for decl in decls {
        push_pair(sizes, decl.values.len())?;
    }
    Ok(())
}

/// Each number of values.
#[tactic(auto, using(crate::proofs::StartLemmas::once_more, crate::proofs::StartLemmas::once_all, crate::proofs::StartLemmas::once_none))]
fn push_once(sizes: &mut Ids, decls: &[Decl]) -> Result<(), NoMemory>
    ensures { OnOk result (sizes.new ≡ sizes.old ++ sizes_of decls.now) }
{
    for decl in decls {
        sizes.push(decl.values.len())?;
    }
    Ok(())
}

/// Two slots for each variable, and one for each observation variable.
fn scope_of(alloc: Global, variables: &[Decl], sights: &[Decl]) -> Result<Scope, NoMemory>
    requires { IsScope (shape_for variables.now sights.now) }
    ensures { IfOk result (λ s. s ≡ shape_for variables.now sights.now) }
{
    let mut sizes = Ids::new(alloc);
    push_twice(&mut sizes, variables)?;
    push_once(&mut sizes, sights)?;
    Ok(Scope::new(sizes, variables.len() as u64))
}

/// Nothing but declarations.
fn begun<'a>(alloc: Global, declared: Declared) -> Result<State<'a>, NoMemory>
    requires { IsScope (shape_for declared.variables declared.sights) }
    ensures { IfOk result (λ s. s ≡ spec.begun declared) }
{
    let scope = scope_of(
        alloc,
        declared.variables.as_slice(),
        declared.sights.as_slice(),
    )?;
    Ok(State {
        env: Env {
            scope,
            variables: declared.variables,
            sights: declared.sights,
            dds: Dds::new(alloc),
        },
        names: Names::new(alloc),
        actions: Drafts::new(alloc),
        init: None,
        reward: None,
        discount: None,
    })
}

/// The sections of a text.
#[tactic(auto, using(sp_declarations::proofs::StepLemmas::turn_err, sp_declarations::proofs::StepLemmas::turns_over))]
fn sections<'a>(
    alloc: Global,
    source: &'a [u8],
    state: &mut State<'a>,
    list: &[Section],
) -> Result<(), ModelError>
    requires state { IsReadingState state.old }
    requires named { All (HasName source.now) list.now }
    ensures value { Leaves (in_turn (spec.section source.now) state.old list.now) result state.new }
    ensures state { OnOk result (IsReadingState state.new) }
{
    for next in list {
        section(alloc, source, state, next)?;
    }
    Ok(())
}

/// The parts of the model of a text.
#[tactic(auto, using(crate::proofs::ReadingLemmas::declared_err, crate::proofs::ReadingLemmas::sections_err, crate::proofs::ReadingLemmas::meaning_then))]
fn parts_of(alloc: Global, source: &[u8], text: &Text) -> Result<Parts, ModelError>
    requires { HasWords source.now text.now }
    ensures value { GivesOrRunsOut (meaning source.now text.now) result }
    ensures model { IfOk result IsModel }
{
    let declared = declarations_of(alloc, source, text)?;
    let mut state = begun(alloc, declared)?;
    sections(alloc, source, &mut state, text.sections.as_slice())?;
    finish(alloc, source.len() as u64, state)
}

/// The model of a text, or the refusal that comes first.
pub fn model_of(alloc: Global, source: &[u8], text: &Text) -> Result<Model, ModelError>
    requires { IsTextOf source.now text.now }
    ensures { AnswersText source.now text.now result }
{
    tokens_by_place(source);
    let parts = parts_of(alloc, source, text)?;
    Ok(Model::new(parts))
}
