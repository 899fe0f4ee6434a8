//! Reads a text: its declarations and its sections.

ghost use Rattle.std.specs.Prelude.{◌≡◌, Ok, ◌∷◌, ◌++◌, ◌+◌, ◌-◌, ◌<◌, ◌≤◌, [], suc, ℕ, List, length};
ghost use Rattle.sp_lex.specs.Tokens.{tokens_of};
ghost use Rattle.sp_syntax.specs.Classes as class_spec;
ghost use Rattle.sp_syntax.specs.Reading as spec;
ghost use Rattle.sp_syntax.specs.Reading.{GivesReading, is_close, is_end_action, is_end_observe, is_word, many, one_of, several};
ghost use Rattle.sp_syntax.specs.Refusal.{AnswersTokens};

use crate::class::{TokenClass, WordClass, classes};
use crate::cursor::Cursor;
use crate::error::{SyntaxError, SyntaxKind};
use crate::text::{
    Declaration, DeclarationList, Declarations, Item, Items, Observed, ObservedList, Section,
    Sections, Text, Values,
};
use crate::tree::tree;
use sp_lex::{Span, Tokens, tokens_by_place};
use std::alloc::Global;

/// One value or more, and the closing bracket behind them.
#[tactic(auto, unfolding(crate::specs::Reading::several))]
fn values(alloc: Global, cursor: &mut Cursor<'_>, end: u64) -> Result<(Values, Span), SyntaxError>
    ensures { GivesReading (several is_close (one_of is_word end) end cursor.old.rest.now) result cursor.new.rest.now }
{
    let first = cursor.expect(cursor.at_word(), end)?;
    let mut values = Values::new(alloc);
    values.push(first)?;
    more_values(cursor, end, values)
}

#[tactic(auto, using(crate::proofs::Steps::turn_ends, crate::proofs::Steps::turn_more, crate::proofs::Steps::turn_err, crate::proofs::Steps::turns_over))]
fn more_values(
    cursor: &mut Cursor<'_>,
    end: u64,
    front: Values,
) -> Result<(Values, Span), SyntaxError>
    ensures { GivesReading (many is_close (one_of is_word end) end (length cursor.old.rest.now) front cursor.old.rest.now) result cursor.new.rest.now }
{
    let mut values = front;
    let turns = cursor.rest.len();
    for turn in 0..turns {
        if cursor.at_close() {
            let right = cursor.take();
            return Ok((values, right));
        }
        let next = cursor.expect(cursor.at_word(), end)?;
        values.push(next)?;
    }
    Err(cursor.refuse(end))
}

#[tactic(auto, unfolding(crate::specs::Reading::declaration))]
fn declaration(alloc: Global, cursor: &mut Cursor<'_>, end: u64) -> Result<Declaration, SyntaxError>
    ensures { GivesReading (spec.declaration end cursor.old.rest.now) result cursor.new.rest.now }
{
    let left = cursor.expect(cursor.at_open(), end)?;
    let name = cursor.expect(cursor.at_name(), end)?;
    let (values, right) = values(alloc, cursor, end)?;
    Ok(Declaration {
        left,
        name,
        values,
        right,
    })
}

/// One declaration or more, and the closing bracket behind them.
#[tactic(auto, unfolding(crate::specs::Reading::several))]
fn declaration_list(
    alloc: Global,
    cursor: &mut Cursor<'_>,
    end: u64,
) -> Result<(DeclarationList, Span), SyntaxError>
    ensures { GivesReading (several is_close (spec.declaration end) end cursor.old.rest.now) result cursor.new.rest.now }
{
    let first = declaration(alloc, cursor, end)?;
    let mut list = DeclarationList::new(alloc);
    list.push(first)?;
    more_declarations(alloc, cursor, end, list)
}

#[tactic(auto, using(crate::proofs::Steps::turn_ends, crate::proofs::Steps::turn_more, crate::proofs::Steps::turn_err, crate::proofs::Steps::turns_over))]
fn more_declarations(
    alloc: Global,
    cursor: &mut Cursor<'_>,
    end: u64,
    front: DeclarationList,
) -> Result<(DeclarationList, Span), SyntaxError>
    ensures { GivesReading (many is_close (spec.declaration end) end (length cursor.old.rest.now) front cursor.old.rest.now) result cursor.new.rest.now }
{
    let mut list = front;
    let turns = cursor.rest.len();
    for turn in 0..turns {
        if cursor.at_close() {
            let right = cursor.take();
            return Ok((list, right));
        }
        let next = declaration(alloc, cursor, end)?;
        list.push(next)?;
    }
    Err(cursor.refuse(end))
}

/// The declarations behind their keyword, the closing bracket too.
#[tactic(auto, unfolding(crate::specs::Reading::declarations))]
fn declarations(
    alloc: Global,
    cursor: &mut Cursor<'_>,
    end: u64,
    left: Span,
    keyword: Span,
) -> Result<Declarations, SyntaxError>
    ensures { GivesReading (spec.declarations end left keyword cursor.old.rest.now) result cursor.new.rest.now }
{
    let (declarations, right) = declaration_list(alloc, cursor, end)?;
    Ok(Declarations {
        left,
        keyword,
        declarations,
        right,
    })
}

#[tactic(auto, unfolding(crate::specs::Reading::observe_entry))]
fn observed(
    alloc: Global,
    cursor: &mut Cursor<'_>,
    end: u64,
    left: u64,
) -> Result<Observed, SyntaxError>
    ensures { GivesReading (spec.observe_entry end left cursor.old.rest.now) result cursor.new.rest.now }
{
    let name = cursor.expect(cursor.at_name(), end)?;
    let tree = tree(alloc, cursor, end, left)?;
    Ok(Observed { name, tree })
}

/// The entries of an observe list, and the word that ends it.
#[tactic(auto, using(crate::proofs::Steps::turn_ends, crate::proofs::Steps::turn_more, crate::proofs::Steps::turn_err, crate::proofs::Steps::turns_over))]
fn observed_list(
    alloc: Global,
    cursor: &mut Cursor<'_>,
    end: u64,
    left: u64,
) -> Result<(ObservedList, Span), SyntaxError>
    ensures { GivesReading (many is_end_observe (spec.observe_entry end left) end (length cursor.old.rest.now) [] cursor.old.rest.now) result cursor.new.rest.now }
{
    let mut list = ObservedList::new(alloc);
    let turns = cursor.rest.len();
    for turn in 0..turns {
        if cursor.at_end_observe() {
            let word = cursor.take();
            return Ok((list, word));
        }
        let next = observed(alloc, cursor, end, left)?;
        list.push(next)?;
    }
    Err(cursor.refuse(end))
}

#[tactic(auto, unfolding(crate::specs::Reading::item_at))]
fn item(alloc: Global, cursor: &mut Cursor<'_>, end: u64, left: u64) -> Result<Item, SyntaxError>
    ensures { GivesReading (spec.item_at end left cursor.old.rest.now) result cursor.new.rest.now }
{
    match cursor.peek() {
        Some(TokenClass::Word(WordClass::Name)) => {
            let name = cursor.take();
            let tree = tree(alloc, cursor, end, left)?;
            Ok(Item::Variable { name, tree })
        }
        Some(TokenClass::Word(WordClass::Observe)) => {
            let keyword = cursor.take();
            let (list, word) = observed_list(alloc, cursor, end, left)?;
            Ok(Item::Observe {
                keyword,
                list,
                end: word,
            })
        }
        Some(TokenClass::Word(WordClass::Cost)) => {
            let keyword = cursor.take();
            let tree = tree(alloc, cursor, end, left)?;
            Ok(Item::Cost { keyword, tree })
        }
        _ => Err(cursor.refuse(end)),
    }
}

/// The items of an action, and the word that ends it.
#[tactic(auto, using(crate::proofs::Steps::turn_ends, crate::proofs::Steps::turn_more, crate::proofs::Steps::turn_err, crate::proofs::Steps::turns_over))]
fn items(
    alloc: Global,
    cursor: &mut Cursor<'_>,
    end: u64,
    left: u64,
) -> Result<(Items, Span), SyntaxError>
    ensures { GivesReading (many is_end_action (spec.item_at end left) end (length cursor.old.rest.now) [] cursor.old.rest.now) result cursor.new.rest.now }
{
    let mut items = Items::new(alloc);
    let turns = cursor.rest.len();
    for turn in 0..turns {
        if cursor.at_end_action() {
            let word = cursor.take();
            return Ok((items, word));
        }
        let next = item(alloc, cursor, end, left)?;
        items.push(next)?;
    }
    Err(cursor.refuse(end))
}

/// An action behind its keyword.
#[tactic(auto, unfolding(crate::specs::Reading::action))]
fn action(
    alloc: Global,
    cursor: &mut Cursor<'_>,
    end: u64,
    left: u64,
    keyword: Span,
) -> Result<Section, SyntaxError>
    ensures { GivesReading (spec.action end left keyword cursor.old.rest.now) result cursor.new.rest.now }
{
    let name = cursor.expect(cursor.at_name(), end)?;
    let (items, word) = items(alloc, cursor, end, left)?;
    Ok(Section::Action {
        keyword,
        name,
        items,
        end: word,
    })
}

/// A dd behind its keyword.
#[tactic(auto, unfolding(crate::specs::Reading::dd))]
fn dd(
    alloc: Global,
    cursor: &mut Cursor<'_>,
    end: u64,
    left: u64,
    keyword: Span,
) -> Result<Section, SyntaxError>
    ensures { GivesReading (spec.dd end left keyword cursor.old.rest.now) result cursor.new.rest.now }
{
    let name = cursor.expect(cursor.at_name(), end)?;
    let tree = tree(alloc, cursor, end, left)?;
    let word = cursor.expect(cursor.at_end_dd(), end)?;
    Ok(Section::Dd {
        keyword,
        name,
        tree,
        end: word,
    })
}

#[tactic(auto, unfolding(crate::specs::Reading::section_at))]
fn section(
    alloc: Global,
    cursor: &mut Cursor<'_>,
    end: u64,
    left: u64,
) -> Result<Section, SyntaxError>
    ensures { GivesReading (spec.section_at end left cursor.old.rest.now) result cursor.new.rest.now }
{
    match cursor.peek() {
        Some(TokenClass::Word(WordClass::Init)) => {
            let keyword = cursor.take();
            let tree = tree(alloc, cursor, end, left)?;
            Ok(Section::Init { keyword, tree })
        }
        Some(TokenClass::Word(WordClass::Dd)) => {
            let keyword = cursor.take();
            dd(alloc, cursor, end, left, keyword)
        }
        Some(TokenClass::Word(WordClass::Action)) => {
            let keyword = cursor.take();
            action(alloc, cursor, end, left, keyword)
        }
        Some(TokenClass::Word(WordClass::Reward)) => {
            let keyword = cursor.take();
            let tree = tree(alloc, cursor, end, left)?;
            Ok(Section::Reward { keyword, tree })
        }
        Some(TokenClass::Word(WordClass::Discount)) => {
            let keyword = cursor.take();
            let word = cursor.expect(cursor.at_word(), end)?;
            Ok(Section::Discount { keyword, word })
        }
        Some(TokenClass::Word(WordClass::Horizon)) => {
            let keyword = cursor.take();
            let word = cursor.expect(cursor.at_word(), end)?;
            Ok(Section::Horizon { keyword, word })
        }
        Some(TokenClass::Word(WordClass::Tolerance)) => {
            let keyword = cursor.take();
            let word = cursor.expect(cursor.at_word(), end)?;
            Ok(Section::Tolerance { keyword, word })
        }
        Some(TokenClass::Word(WordClass::Unnormalized)) => Err(cursor.refuse_as(
            SyntaxKind::Unsupported,
        )),
        _ => Err(cursor.refuse(end)),
    }
}

/// The sections up to the end of the text.
#[tactic(auto, using(crate::proofs::Steps::section_none, crate::proofs::Steps::section_more, crate::proofs::Steps::section_err, crate::proofs::Steps::sections_over))]
fn sections(
    alloc: Global,
    cursor: &mut Cursor<'_>,
    end: u64,
    left: u64,
) -> Result<Sections, SyntaxError>
    ensures { GivesReading (spec.sections end left (length cursor.old.rest.now) [] cursor.old.rest.now) result cursor.new.rest.now }
{
    let mut sections = Sections::new(alloc);
    let turns = cursor.rest.len();
    for turn in 0..turns {
        if cursor.is_empty() {
            return Ok(sections);
        }
        let next = section(alloc, cursor, end, left)?;
        sections.push(next)?;
    }
    Ok(sections)
}

/// A whole text, where `left` brackets may be opened.
#[tactic(auto, unfolding(crate::specs::Reading::text))]
fn text(alloc: Global, cursor: &mut Cursor<'_>, end: u64, left: u64) -> Result<Text, SyntaxError>
    ensures { GivesReading (spec.text end left cursor.old.rest.now) result cursor.new.rest.now }
{
    let bracket = cursor.expect(cursor.at_open(), end)?;
    let keyword = cursor.expect(cursor.at_variables(), end)?;
    let variables = declarations(alloc, cursor, end, bracket, keyword)?;
    let bracket = cursor.expect(cursor.at_open(), end)?;
    let keyword = cursor.expect(cursor.at_observations(), end)?;
    let observations = declarations(alloc, cursor, end, bracket, keyword)?;
    let sections = sections(alloc, cursor, end, left)?;
    Ok(Text {
        variables,
        observations,
        sections,
    })
}

/// How many brackets may be open at once.
const MOST_OPEN: u64 = 128;

/// The tree of a source's tokens, or where and why they are no model text.
///
/// One pass from left to right, linear in the tokens. The place of a fault is the first byte of the first token behind
/// which nothing could make a text, or that is the 129th open bracket, or the source's length.
pub fn parse(alloc: Global, source: &[u8], tokens: &Tokens) -> Result<Text, SyntaxError>
    requires { tokens_of source.now ≡ Ok tokens.now }
    ensures { AnswersTokens (length source.now) (class_spec.classes source.now tokens.now) result }
{
    tokens_by_place(source);
    let end = source.len() as u64;
    if tokens.len() == 0 {
        return Err(SyntaxError::Fault {
            at: end,
            kind: SyntaxKind::Unexpected,
        });
    }
    let list = classes(alloc, source, tokens)?;
    let mut cursor = Cursor {
        rest: list.as_slice(),
    };
    text(alloc, &mut cursor, end, MOST_OPEN)
}
