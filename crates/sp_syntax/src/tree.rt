//! Reads decision trees.

ghost use Rattle.std.specs.Prelude.{◌≡◌, ◌∷◌, ◌++◌, ◌+◌, ◌-◌, ◌<◌, ◌≤◌, suc, ℕ, List, length};
ghost use Rattle.sp_syntax.specs.Reading as spec;
ghost use Rattle.sp_syntax.specs.Reading.{GivesReading, is_close, is_right_square, head_class, many};

use crate::class::{TokenClass, WordClass};
use crate::cursor::Cursor;
use crate::error::{SyntaxError, SyntaxKind};
use crate::text::{Branch, Branches, Tree, Trees};
use sp_lex::Span;
use std::alloc::Global;

/// A tree, where `left` brackets may still be opened.
#[cycle(reader)]
#[tactic(auto, using(crate::proofs::Steps::tree_step))]
pub fn tree(
    alloc: Global,
    cursor: &mut Cursor<'_>,
    end: u64,
    left: u64,
) -> Result<Tree, SyntaxError>
    ensures { GivesReading (spec.tree_at end left cursor.old.rest.now) result cursor.new.rest.now }
{
    match cursor.peek() {
        Some(TokenClass::Open) => {
            if left == 0 {
                return Err(cursor.refuse_as(SyntaxKind::TooDeep));
            }
            let bracket = cursor.take();
            round(alloc, cursor, end, bracket, left - 1)
        }
        Some(TokenClass::LeftSquare) => {
            if left == 0 {
                return Err(cursor.refuse_as(SyntaxKind::TooDeep));
            }
            let bracket = cursor.take();
            square(alloc, cursor, end, bracket, left - 1)
        }
        _ => Err(cursor.refuse(end)),
    }
}

/// What follows a tree's round bracket, the closing bracket too.
#[cycle(reader)]
#[tactic(auto, unfolding(crate::specs::Reading::round))]
fn round(
    alloc: Global,
    cursor: &mut Cursor<'_>,
    end: u64,
    bracket: Span,
    left: u64,
) -> Result<Tree, SyntaxError>
    ensures { GivesReading (spec.round (spec.branch_at end left) end bracket cursor.old.rest.now) result cursor.new.rest.now }
{
    match cursor.peek() {
        Some(TokenClass::Word(WordClass::Number | WordClass::Minus)) => {
            let number = cursor.take();
            let right = cursor.expect(cursor.at_close(), end)?;
            Ok(Tree::Number {
                left: bracket,
                number,
                right,
            })
        }
        Some(TokenClass::Word(WordClass::Name)) => {
            let name = cursor.take();
            after_name(alloc, cursor, end, bracket, name, left)
        }
        Some(TokenClass::Primed) => {
            let variable = cursor.take();
            let (branches, right) = branches(alloc, cursor, end, left)?;
            Ok(Tree::PrimedNode {
                left: bracket,
                variable,
                branches,
                right,
            })
        }
        _ => Err(cursor.refuse(end)),
    }
}

/// What follows the name of a tree.
#[cycle(reader)]
#[tactic(auto, unfolding(crate::specs::Reading::after_name))]
fn after_name(
    alloc: Global,
    cursor: &mut Cursor<'_>,
    end: u64,
    bracket: Span,
    name: Span,
    left: u64,
) -> Result<Tree, SyntaxError>
    ensures { GivesReading (spec.after_name (spec.branch_at end left) end bracket name cursor.old.rest.now) result cursor.new.rest.now }
{
    if cursor.at_close() {
        let right = cursor.take();
        return Ok(Tree::Reference {
            left: bracket,
            name,
            right,
        });
    }
    let (branches, right) = branches(alloc, cursor, end, left)?;
    Ok(Tree::Node {
        left: bracket,
        variable: name,
        branches,
        right,
    })
}

/// One branch or more, and the closing bracket behind them.
#[cycle(reader)]
#[tactic(auto, unfolding(crate::specs::Reading::several))]
fn branches(
    alloc: Global,
    cursor: &mut Cursor<'_>,
    end: u64,
    left: u64,
) -> Result<(Branches, Span), SyntaxError>
    ensures { GivesReading (spec.several is_close (spec.branch_at end left) end cursor.old.rest.now) result cursor.new.rest.now }
{
    let first = branch(alloc, cursor, end, left)?;
    let mut branches = Branches::new(alloc);
    branches.push(first)?;
    more_branches(alloc, cursor, end, branches, left)
}

#[cycle(reader)]
#[tactic(auto, unfolding(crate::specs::Reading::branch))]
fn branch(
    alloc: Global,
    cursor: &mut Cursor<'_>,
    end: u64,
    left: u64,
) -> Result<Branch, SyntaxError>
    ensures { GivesReading (spec.branch_at end left cursor.old.rest.now) result cursor.new.rest.now }
{
    match cursor.peek() {
        Some(TokenClass::Open) => {
            if left == 0 {
                return Err(cursor.refuse_as(SyntaxKind::TooDeep));
            }
            let bracket = cursor.take();
            let value = cursor.expect(cursor.at_word(), end)?;
            let tree = tree(alloc, cursor, end, left - 1)?;
            let right = cursor.expect(cursor.at_close(), end)?;
            Ok(Branch {
                left: bracket,
                value,
                tree,
                right,
            })
        }
        _ => Err(cursor.refuse(end)),
    }
}

/// The branches behind some, and the closing bracket behind them.
#[cycle(reader)]
#[tactic(auto, using(crate::proofs::Steps::turn_ends, crate::proofs::Steps::turn_more, crate::proofs::Steps::turn_err, crate::proofs::Steps::turns_over))]
fn more_branches(
    alloc: Global,
    cursor: &mut Cursor<'_>,
    end: u64,
    front: Branches,
    left: u64,
) -> Result<(Branches, Span), SyntaxError>
    ensures { GivesReading (many is_close (spec.branch_at end left) end (length cursor.old.rest.now) front cursor.old.rest.now) result cursor.new.rest.now }
{
    let mut branches = front;
    let turns = cursor.rest.len();
    for turn in 0..turns {
        if cursor.at_close() {
            let right = cursor.take();
            return Ok((branches, right));
        }
        let next = branch(alloc, cursor, end, left)?;
        branches.push(next)?;
    }
    Err(cursor.refuse(end))
}

/// What follows a square bracket, the closing bracket too.
#[cycle(reader)]
#[tactic(auto, unfolding(crate::specs::Reading::square))]
fn square(
    alloc: Global,
    cursor: &mut Cursor<'_>,
    end: u64,
    bracket: Span,
    left: u64,
) -> Result<Tree, SyntaxError>
    ensures { GivesReading (spec.square (spec.tree_at end left) end bracket cursor.old.rest.now) result cursor.new.rest.now }
{
    match cursor.peek() {
        Some(TokenClass::Plus) => {
            let plus = cursor.take();
            let (trees, right) = trees(alloc, cursor, end, left)?;
            Ok(Tree::Sum {
                left: bracket,
                plus,
                trees,
                right,
            })
        }
        Some(TokenClass::Star) => {
            let star = cursor.take();
            let (trees, right) = trees(alloc, cursor, end, left)?;
            Ok(Tree::Product {
                left: bracket,
                star,
                trees,
                right,
            })
        }
        Some(TokenClass::Hash | TokenClass::Slash | TokenClass::Word(WordClass::Minus)) => Err(
            cursor.refuse_as(SyntaxKind::Unsupported),
        ),
        _ => Err(cursor.refuse(end)),
    }
}

/// One tree or more, and the closing bracket behind them.
#[cycle(reader)]
#[tactic(auto, unfolding(crate::specs::Reading::several))]
fn trees(
    alloc: Global,
    cursor: &mut Cursor<'_>,
    end: u64,
    left: u64,
) -> Result<(Trees, Span), SyntaxError>
    ensures { GivesReading (spec.several is_right_square (spec.tree_at end left) end cursor.old.rest.now) result cursor.new.rest.now }
{
    let first = tree(alloc, cursor, end, left)?;
    let mut trees = Trees::new(alloc);
    trees.push(first)?;
    more_trees(alloc, cursor, end, trees, left)
}

/// The trees behind some, and the closing bracket behind them.
#[cycle(reader)]
#[tactic(auto, using(crate::proofs::Steps::turn_ends, crate::proofs::Steps::turn_more, crate::proofs::Steps::turn_err, crate::proofs::Steps::turns_over))]
fn more_trees(
    alloc: Global,
    cursor: &mut Cursor<'_>,
    end: u64,
    front: Trees,
    left: u64,
) -> Result<(Trees, Span), SyntaxError>
    ensures { GivesReading (many is_right_square (spec.tree_at end left) end (length cursor.old.rest.now) front cursor.old.rest.now) result cursor.new.rest.now }
{
    let mut trees = front;
    let turns = cursor.rest.len();
    for turn in 0..turns {
        if cursor.at_right_square() {
            let right = cursor.take();
            return Ok((trees, right));
        }
        let next = tree(alloc, cursor, end, left)?;
        trees.push(next)?;
    }
    Err(cursor.refuse(end))
}
