//! Reads the words of a model text: its tokens with their places, and decimal words as whole ticks.
//!
//! Everything above takes its places from the spans that are made here, and its numbers from [`ticks`].
#![tactic(auto)]

mod decimal;
mod laws;
mod lexeme;
mod lexer;

pub use decimal::{NumError, ticks};
pub use laws::{decimal_by_spelling, tokens_by_place};
pub use lexeme::{Span, Token, TokenKind, Tokens};
pub use lexer::{LexError, tokens};
