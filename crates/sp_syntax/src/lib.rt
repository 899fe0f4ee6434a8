//! Reads the tokens of a model text as the tree of its grammar, or says where the text first goes wrong.
#![tactic(auto)]

mod class;
mod cursor;
mod error;
mod laws;
mod reader;
mod sequence;
mod text;
mod tree;

pub use error::{SyntaxError, SyntaxKind};
pub use laws::{refused_is_no_text, spans_rise, text_is_unique};
pub use reader::parse;
pub use sequence::Sequence;
pub use text::{
    Branch, Branches, Declaration, DeclarationList, Declarations, Item, Items, Observed,
    ObservedList, Section, Sections, Text, Tree, Trees, Values,
};
