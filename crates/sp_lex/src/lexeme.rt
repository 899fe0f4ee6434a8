ghost use Rattle.std.specs.Prelude.{◌≡◌, ◌<◌, Some, length, slice_get};

use std::marker::Model;

/// The bytes of a source from `start` up to, and without, `end`.
#[derive(Clone, Copy, Debug, PartialEq, Eq)]
pub struct Span {
    pub start: u64,
    pub end: u64,
}

/// What a token is.
#[derive(Clone, Copy, Debug, PartialEq, Eq)]
pub enum TokenKind {
    /// `(`
    LeftRound,
    /// `)`
    RightRound,
    /// `[`
    LeftSquare,
    /// `]`
    RightSquare,
    /// A longest run of ASCII letters, digits, `_`, `-` and `.`.
    Word,
    /// A word with a `'` directly behind it; the span holds both.
    Primed,
    /// Any other single byte of 33 to 126.
    Mark,
}

/// A token and the place of its text.
#[derive(Clone, Copy, Debug, PartialEq, Eq)]
pub struct Token {
    pub kind: TokenKind,
    pub span: Span,
}

/// The tokens of a source, in order.
#[derive(Drop)]
pub struct Tokens {
    list: Vec<Token>,
}

impl Model for Tokens {
    ghost use Rattle.std.specs.Prelude.{List};
    ghost use Rattle.sp_lex.specs.declared.lexeme.Token.{Token};

    ghost Value = { List Token };

    ghost view = { λ t. t.list.items };
}

impl Tokens {
    /// The list of these tokens.
    pub(crate) fn from_list(list: Vec<Token>) -> Tokens
        ensures { result ≡ list.items }
    {
        Tokens { list }
    }

    /// How many tokens there are.
    pub fn len(&self) -> u64
        ensures { result ≡ length self.now }
    {
        self.list.len() as u64
    }

    /// The token at a place, counted from 0.
    pub fn at(&self, place: u64) -> &Token
        requires { place < length self.now }
        ensures { slice_get self.now place ≡ Some result.now }
    {
        &self.list[place as usize]
    }
}
