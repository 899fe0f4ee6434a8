//! Tokens, numbers, and the texts of generated models.

use crate::stopped::Stopped;
use sp_gen::generated;
use sp_lex::{LexError, NumError, Token, TokenKind, ticks, tokens};
use sp_show::decimal;
use std::alloc::Global;

/// The numbers of a line, with spaces between.
pub fn numbers_of(alloc: Global, line: &str) -> Result<Vec<u64>, Stopped> {
    let mut numbers = Vec::new(alloc);
    for word in line.split_whitespace() {
        numbers.push(word.parse::<u64>()?)?;
    }
    Ok(numbers)
}

/// Adds a line for each token of a text, or one for its refused byte.
pub fn push_tokens(told: &mut String, alloc: Global, text: &[u8]) -> Result<(), Stopped> {
    match tokens(alloc, text) {
        Ok(list) => {
            for place in 0..list.len() {
                push_token(told, *list.at(place))?;
            }
            Ok(())
        }
        Err(LexError::NotAscii { at }) => Ok(writeln!(told, "refused at {at}")?),
        Err(LexError::NoMemory) => Err(Stopped),
    }
}

/// Adds the line of a token.
fn push_token(told: &mut String, token: Token) -> Result<(), Stopped> {
    let (kind, start, end) = (name_of(token.kind), token.span.start, token.span.end);
    Ok(writeln!(told, "{kind} {start} {end}")?)
}

/// The name of a kind of token.
fn name_of(kind: TokenKind) -> &'static str {
    match kind {
        TokenKind::LeftRound => "left round",
        TokenKind::RightRound => "right round",
        TokenKind::LeftSquare => "left square",
        TokenKind::RightSquare => "right square",
        TokenKind::Word => "word",
        TokenKind::Primed => "primed",
        TokenKind::Mark => "mark",
    }
}

/// Adds the ticks of a word, or why it has none.
pub fn push_ticks(told: &mut String, word: &str) -> Result<(), Stopped> {
    match ticks(word.as_bytes()) {
        Ok(number) => writeln!(told, "{number}")?,
        Err(NumError::Shape) => told.push_str("of no shape\n")?,
        Err(NumError::TooFine) => told.push_str("too fine\n")?,
        Err(NumError::TooLarge) => told.push_str("too large\n")?,
    }
    Ok(())
}

/// Adds the decimal of so many ticks.
pub fn push_decimal(told: &mut String, alloc: Global, number: &str) -> Result<(), Stopped> {
    let text = decimal(alloc, number.parse::<i128>()?)?;
    told.push_str(text.as_str())?;
    Ok(told.push_str("\n")?)
}

/// Adds the generated model of a number.
pub fn push_generated(told: &mut String, alloc: Global, number: u64) -> Result<(), Stopped> {
    if number > 16 {
        return Err(Stopped);
    }
    let text = generated(alloc, number)?;
    Ok(told.push_str(text.as_str())?)
}
