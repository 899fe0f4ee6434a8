//! The names of refusals, as they are told.

ghost use Rattle.std.specs.Prelude.{◌≡◌, ◌++◌, IfOk, codes, slice_index_or};
ghost use Rattle.std.specs.Fmt.{decimal};
ghost use Rattle.sp_show.specs.Decimals.{decimal_of};
ghost use Rattle.sp_reader.specs.Kinds.{grammar_name, kind_text, plain_name, action_name, variable_name, action_names, variable_names, no_span};

use sp_checks::ModelKind;
use sp_dd::NoMemory;
use sp_lex::Span;
use sp_model::Name;
use sp_show::decimal;
use sp_syntax::{Declaration, Section, SyntaxKind, Text};
use sp_trees::text;
use std::alloc::Global;

/// The name of a fault of the grammar.
pub(crate) fn grammar_name(kind: SyntaxKind) -> &'static str
    ensures { result.now ≡ grammar_name kind }
{
    match kind {
        SyntaxKind::Unsupported => "Unsupported",
        SyntaxKind::TooDeep => "TooDeep",
        SyntaxKind::Unclosed => "Unclosed",
        SyntaxKind::Unexpected => "Unexpected",
    }
}

/// The name of a refusal, with what it tells beside its place.
pub(crate) fn kind_text(
    alloc: Global,
    source: &[u8],
    tree: &Text,
    kind: ModelKind,
) -> Result<Name, NoMemory>
    ensures { IfOk result (λ name. name ≡ kind_text source.now tree.now kind) }
{
    match kind {
        ModelKind::RowSum {
            action,
            variable,
            row,
            sum,
        } => row_sum_text(alloc, source, tree, action, variable, row, sum),
        ModelKind::InitSum { sum } => {
            let sum = decimal(alloc, sum)?;
            let text = format!(in alloc; "InitSum sum {sum}")?;
            Name::new(alloc, text.as_bytes())
        }
        ModelKind::TooMany { limit } => {
            let text = format!(in alloc; "TooMany {limit}")?;
            Name::new(alloc, text.as_bytes())
        }
        other => Name::new(alloc, plain_name(other).as_bytes()),
    }
}

/// The name of a refusal that tells nothing beside its place.
fn plain_name(kind: ModelKind) -> &'static str
    ensures { result.now ≡ plain_name kind }
{
    match kind {
        ModelKind::UnknownName => "UnknownName",
        ModelKind::RepeatedName => "RepeatedName",
        ModelKind::MissingValue => "MissingValue",
        ModelKind::MissingPart => "MissingPart",
        ModelKind::BadScope => "BadScope",
        ModelKind::BadNumber => "BadNumber",
        ModelKind::TooFine => "TooFine",
        ModelKind::TooLarge => "TooLarge",
        ModelKind::BadProbability => "BadProbability",
        ModelKind::DiscountRange => "DiscountRange",
        ModelKind::RewardRange => "RewardRange",
        ModelKind::RowSum { .. } => "RowSum",
        ModelKind::InitSum { .. } => "InitSum",
        ModelKind::TooMany { .. } => "TooMany",
    }
}

/// The name of a row that doesn't sum to one.
fn row_sum_text(
    alloc: Global,
    source: &[u8],
    tree: &Text,
    action: u64,
    variable: u64,
    row: u64,
    sum: i128,
) -> Result<Name, NoMemory>
    ensures { IfOk result (λ name. name ≡ codes "RowSum " ++ (action_name source.now tree.now action ++ (codes " " ++ (variable_name source.now tree.now variable ++ (codes " row " ++ (decimal row ++ (codes " sum " ++ decimal_of sum))))))) }
{
    let sum = decimal(alloc, sum)?;
    let rest = format!(in alloc; " row {row} sum {sum}")?;
    let mut bytes = named_row(alloc, source, tree, action, variable)?;
    bytes.extend_from_slice(rest.as_bytes())?;
    let name = Name::new(alloc, bytes.as_slice())?;
    Ok(name)
}

/// The name of a row that doesn't sum to one, up to its variable.
fn named_row(
    alloc: Global,
    source: &[u8],
    tree: &Text,
    action: u64,
    variable: u64,
) -> Result<Vec<u8>, NoMemory>
    ensures { IfOk result (λ bytes. bytes.items ≡ codes "RowSum " ++ (action_name source.now tree.now action ++ (codes " " ++ variable_name source.now tree.now variable))) }
{
    let action = text(source, action_span(tree.sections.as_slice(), action));
    let variable = text(source, variable_span(tree, variable));
    let mut bytes = Vec::new(alloc);
    bytes.extend_from_slice(b"RowSum ")?;
    bytes.extend_from_slice(action)?;
    bytes.extend_from_slice(b" ")?;
    bytes.extend_from_slice(variable)?;
    Ok(bytes)
}

/// The name of the action of that number.
#[tactic(auto, using(crate::proofs::Fronts::drop_item))]
fn action_span(sections: &[Section], action: u64) -> Span
    ensures { result ≡ slice_index_or (action_names sections.now) action no_span }
{
    let mut left = action;
    for section in sections {
        if let Section::Action { name, .. } = section {
            if left == 0 {
                return *name;
            }
            left -= 1;
        }
    }
    Span { start: 0, end: 0 }
}

/// The name of the variable of that number; the observation variables follow the state variables.
fn variable_span(tree: &Text, variable: u64) -> Span
    ensures { result ≡ slice_index_or (variable_names (tree.now.variables.declarations ++ tree.now.observations.declarations)) variable no_span }
{
    let states = tree.variables.declarations.as_slice();
    let seen = tree.observations.declarations.as_slice();
    let count = states.len() as u64;
    if variable < count {
        states[variable as usize].name
    } else {
        declared_name(seen, variable - count)
    }
}

/// The name of the declaration at a place.
fn declared_name(declarations: &[Declaration], place: u64) -> Span
    ensures { result ≡ slice_index_or (variable_names declarations.now) place no_span }
{
    if place < declarations.len() as u64 {
        declarations[place as usize].name
    } else {
        Span { start: 0, end: 0 }
    }
}
