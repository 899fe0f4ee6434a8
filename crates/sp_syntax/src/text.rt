//! The tree of a model text: one type for each production, with the place of each word and bracket.

use crate::sequence::Sequence;
use sp_lex::Span;

pub type Values = Sequence<Span>;

pub type DeclarationList = Sequence<Declaration>;

pub type Sections = Sequence<Section>;

pub type Items = Sequence<Item>;

pub type ObservedList = Sequence<Observed>;

pub type Branches = Sequence<Branch>;

pub type Trees = Sequence<Tree>;

/// A model text: `variables observations section*`.
#[derive(Drop)]
pub struct Text {
    pub variables: Declarations,
    pub observations: Declarations,
    pub sections: Sections,
}

/// `"(" KEYWORD declaration+ ")"`, where the keyword is `variables` or `observations`.
#[derive(Drop)]
pub struct Declarations {
    pub left: Span,
    pub keyword: Span,
    pub declarations: DeclarationList,
    pub right: Span,
}

/// `"(" NAME VALUE+ ")"`
#[derive(Drop)]
pub struct Declaration {
    pub left: Span,
    pub name: Span,
    pub values: Values,
    pub right: Span,
}

/// A section of a text.
#[derive(Drop)]
pub enum Section {
    /// `"init" tree`
    Init {
        keyword: Span,
        tree: Tree,
    },
    /// `"dd" NAME tree "enddd"`
    Dd {
        keyword: Span,
        name: Span,
        tree: Tree,
        end: Span,
    },
    /// `"action" NAME item* "endaction"`
    Action {
        keyword: Span,
        name: Span,
        items: Items,
        end: Span,
    },
    /// `"reward" tree`
    Reward {
        keyword: Span,
        tree: Tree,
    },
    /// `"discount" WORD`
    Discount {
        keyword: Span,
        word: Span,
    },
    /// `"horizon" WORD`
    Horizon {
        keyword: Span,
        word: Span,
    },
    /// `"tolerance" WORD`
    Tolerance {
        keyword: Span,
        word: Span,
    },
}

/// An item of an action.
#[derive(Drop)]
pub enum Item {
    /// `NAME tree`
    Variable {
        name: Span,
        tree: Tree,
    },
    /// `"observe" (NAME tree)* "endobserve"`
    Observe {
        keyword: Span,
        list: ObservedList,
        end: Span,
    },
    /// `"cost" tree`
    Cost {
        keyword: Span,
        tree: Tree,
    },
}

/// `NAME tree` in the list of `observe`.
#[derive(Drop)]
pub struct Observed {
    pub name: Span,
    pub tree: Tree,
}

/// A decision tree.
#[cycle(tree)]
#[derive(Drop)]
pub enum Tree {
    /// `"(" NUMBER ")"`
    Number {
        left: Span,
        number: Span,
        right: Span,
    },
    /// `"(" NAME ")"`: the tree that `dd` gave that name.
    Reference {
        left: Span,
        name: Span,
        right: Span,
    },
    /// `"(" NAME branch+ ")"`
    Node {
        left: Span,
        variable: Span,
        branches: Branches,
        right: Span,
    },
    /// `"(" PRIMED branch+ ")"`; the span of the variable holds the `'` too.
    PrimedNode {
        left: Span,
        variable: Span,
        branches: Branches,
        right: Span,
    },
    /// `"[" "+" tree+ "]"`
    Sum {
        left: Span,
        plus: Span,
        trees: Trees,
        right: Span,
    },
    /// `"[" "*" tree+ "]"`
    Product {
        left: Span,
        star: Span,
        trees: Trees,
        right: Span,
    },
}

/// `"(" VALUE tree ")"`
#[cycle(tree)]
#[derive(Drop)]
pub struct Branch {
    pub left: Span,
    pub value: Span,
    pub tree: Tree,
    pub right: Span,
}
