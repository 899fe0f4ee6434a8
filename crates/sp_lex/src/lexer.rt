ghost use Rattle.std.specs.Prelude.{◌≡◌, ◌+◌, ◌<◌, ◌≤◌, ◌++◌, ℕ, Ok, IfErr, IfOk, IfSome, IsTrue, OnOk, drop, length, take_while};
ghost use Rattle.sp_lex.specs.Bytes.{class_of, has_byte, is_not_line_feed, is_word_byte};
ghost use Rattle.sp_lex.specs.Tokens.{RefusesBytes, piece_of, token_of, tokens_of};

use crate::lexeme::{Span, Token, TokenKind, Tokens};
use std::alloc::{AllocError, Global};
use thiserror::Error;

/// Why a source has no tokens.
#[derive(Clone, Copy, Debug, PartialEq, Eq, Error)]
pub enum LexError {
    /// The first byte outside comments that is neither tab, LF, CR nor one of 32 to 126.
    #[error("the byte at {at} is neither white space nor printable ASCII")]
    NotAscii { at: u64 },
    #[error("out of memory")]
    NoMemory,
}

impl From<AllocError> for LexError {
    ghost use Rattle.sp_lex.specs.declared.lexer.LexError.TheVariants.{NoMemory};

    ghost from_gives = { λ _ e. e ≡ NoMemory };

    fn from(_error: AllocError) -> LexError {
        LexError::NoMemory
    }
}

/// What a byte begins outside of comments.
#[derive(Clone, Copy)]
pub enum ByteClass {
    /// A word.
    InWord,
    /// A comment where a second slash follows, else a mark.
    Slash,
    /// White space.
    White,
    /// A token of this one byte.
    Single(TokenKind),
    /// Nothing: it is not allowed there.
    Forbidden,
}

/// What stands at the front of a text: how many bytes, and the token's kind, where they are one.
#[derive(Clone, Copy)]
pub struct Piece {
    pub len: usize,
    pub kind: Option<TokenKind>,
}

impl Piece {
    /// So many bytes that are a token.
    fn token(len: usize, kind: TokenKind) -> Piece
        ensures { result ≡ record { len = len; kind = Some kind } }
    {
        Piece {
            len,
            kind: Some(kind),
        }
    }

    /// So many bytes between tokens.
    fn gap(len: usize) -> Piece
        ensures { result ≡ record { len = len; kind = None } }
    {
        Piece { len, kind: None }
    }
}

fn is_word_byte(byte: u8) -> bool
    ensures { result ≡ is_word_byte byte }
{
    byte.is_ascii_alphanumeric() || byte == b'_' || byte == b'-' || byte == b'.'
}

/// How many word bytes stand at the front.
fn word_len(bytes: &[u8]) -> usize
    ensures value { result ≡ length (take_while is_word_byte bytes.now) }
    ensures within { result ≤ length bytes.now }
{
    bytes.iter().take_while(|byte| is_word_byte(**byte)).count()
}

/// How many bytes stand before the first line feed.
fn line_len(bytes: &[u8]) -> usize
    ensures value { result ≡ length (take_while is_not_line_feed bytes.now) }
    ensures within { result ≤ length bytes.now }
{
    bytes.iter().take_while(|byte| **byte != b'\n').count()
}

#[tactic(auto, unfolding(crate::specs::Bytes::class_of))]
fn class_of(byte: u8) -> ByteClass
    ensures { result ≡ class_of byte }
{
    if is_word_byte(byte) {
        ByteClass::InWord
    } else if byte == b'/' {
        ByteClass::Slash
    } else if byte == b' ' || byte == b'\t' || byte == b'\n' || byte == b'\r' {
        ByteClass::White
    } else if byte == b'(' {
        ByteClass::Single(TokenKind::LeftRound)
    } else if byte == b')' {
        ByteClass::Single(TokenKind::RightRound)
    } else if byte == b'[' {
        ByteClass::Single(TokenKind::LeftSquare)
    } else if byte == b']' {
        ByteClass::Single(TokenKind::RightSquare)
    } else if 33 <= byte && byte <= 126 {
        ByteClass::Single(TokenKind::Mark)
    } else {
        ByteClass::Forbidden
    }
}

/// Whether this byte stands at the place.
fn has_byte(bytes: &[u8], place: usize, byte: u8) -> bool
    ensures value { result ≡ has_byte bytes.now place byte }
    ensures within { IsTrue result → place < length bytes.now }
{
    match bytes.get(place).copied() {
        Some(found) => found == byte,
        None => false,
    }
}

/// What stands at the front, or none where the first byte is not allowed.
#[tactic(auto, unfolding(crate::specs::Tokens::piece_of))]
fn front_piece(bytes: &[u8]) -> Option<Piece>
    requires { 0 < length bytes.now }
    ensures value { result ≡ piece_of bytes.now }
    ensures within { IfSome result (λ piece. (0 < piece.len) × (piece.len ≤ length bytes.now)) }
{
    match class_of(bytes[0]) {
        ByteClass::InWord => {
            let len = 1 + word_len(&bytes[1..]);
            if has_byte(bytes, len, b'\'') {
                Some(Piece::token(len + 1, TokenKind::Primed))
            } else {
                Some(Piece::token(len, TokenKind::Word))
            }
        }
        ByteClass::Slash => {
            if has_byte(bytes, 1, b'/') {
                Some(Piece::gap(2 + line_len(&bytes[2..])))
            } else {
                Some(Piece::token(1, TokenKind::Mark))
            }
        }
        ByteClass::White => Some(Piece::gap(1)),
        ByteClass::Single(kind) => Some(Piece::token(1, kind)),
        ByteClass::Forbidden => None,
    }
}

/// The bytes from a place on.
fn rest_at(source: &[u8], at: usize) -> &[u8]
    requires { at ≤ length source.now }
    ensures { result.now ≡ drop at source.now }
{
    &source[at..]
}

/// Puts the token of a piece, where it is one, at the end.
fn put(
    list: &mut Vec<Token>,
    kind: Option<TokenKind>,
    start: usize,
    end: usize,
) -> Result<(), AllocError>
    ensures { OnOk result (list.new.items ≡ list.old.items ++ token_of kind start end) }
{
    if let Some(kind) = kind {
        let span = Span {
            start: start as u64,
            end: end as u64,
        };
        list.push(Token { kind, span })?;
    }
    Ok(())
}

/// The tokens of a source.
///
/// White space and comments stand between them: a comment begins with `//`, ends before the next LF or with the
/// source, and may hold any bytes. The text of a token is the slice of its span.
#[tactic(auto, using(crate::proofs::Steps::read_nothing, crate::proofs::Steps::read_all, crate::proofs::Steps::read_forbidden, crate::proofs::Steps::read_piece))]
pub fn tokens(alloc: Global, source: &[u8]) -> Result<Tokens, LexError>
    ensures ok { IfOk result (λ list. tokens_of source.now ≡ Ok list) }
    ensures err { IfErr result (λ error. RefusesBytes (tokens_of source.now) error) }
{
    let mut list = Vec::new(alloc);
    let mut at = 0;
    while at < source.len() {
        let Some(piece) = front_piece(rest_at(source, at)) else {
            return Err(LexError::NotAscii { at: at as u64 });
        };
        let end = at + piece.len;
        put(&mut list, piece.kind, at, end)?;
        at = end;
    }
    Ok(Tokens::from_list(list))
}
