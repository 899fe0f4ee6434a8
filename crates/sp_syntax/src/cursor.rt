//! The tokens that are left to read.

ghost use Rattle.std.specs.Prelude.{◌≡◌, ◌∷◌, ◌<◌, [], suc, ℕ, List, length};
ghost use Rattle.sp_syntax.specs.Reading as spec;
ghost use Rattle.sp_syntax.specs.Reading.{GivesReading, head_class, here, here_as};

use crate::class::{Classed, TokenClass, WordClass};
use crate::error::{SyntaxError, SyntaxKind};
use sp_lex::Span;

#[derive(Drop)]
pub struct Cursor<'a> {
    pub rest: &'a [Classed],
}

impl<'a> Cursor<'a> {
    /// Whether no token is left.
    pub fn is_empty(&self) -> bool
        ensures { result ≡ spec.is_empty self.now.rest.now }
    {
        match self.rest {
            [] => true,
            [_, ..] => false,
        }
    }

    /// The class of the next token.
    pub fn peek(&self) -> Option<TokenClass>
        ensures { result ≡ head_class self.now.rest.now }
    {
        match self.rest {
            [] => None,
            [first, ..] => Some(first.class),
        }
    }

    /// Whether the next token is an opening round bracket.
    pub fn at_open(&self) -> bool
        ensures { result ≡ spec.is_open (head_class self.now.rest.now) }
    {
        matches!(self.peek(), Some(TokenClass::Open))
    }

    /// Whether the next token is a closing round bracket.
    pub fn at_close(&self) -> bool
        ensures { result ≡ spec.is_close (head_class self.now.rest.now) }
    {
        matches!(self.peek(), Some(TokenClass::Close))
    }

    /// Whether the next token is a closing square bracket.
    pub fn at_right_square(&self) -> bool
        ensures { result ≡ spec.is_right_square (head_class self.now.rest.now) }
    {
        matches!(self.peek(), Some(TokenClass::RightSquare))
    }

    /// Whether the next token is a word.
    pub fn at_word(&self) -> bool
        ensures { result ≡ spec.is_word (head_class self.now.rest.now) }
    {
        matches!(self.peek(), Some(TokenClass::Word(_)))
    }

    /// Whether the next token is a name.
    pub fn at_name(&self) -> bool
        ensures { result ≡ spec.is_name (head_class self.now.rest.now) }
    {
        matches!(self.peek(), Some(TokenClass::Word(WordClass::Name)))
    }

    /// Whether the next token is the word `variables`.
    pub fn at_variables(&self) -> bool
        ensures { result ≡ spec.is_variables (head_class self.now.rest.now) }
    {
        matches!(self.peek(), Some(TokenClass::Word(WordClass::Variables)))
    }

    /// Whether the next token is the word `observations`.
    pub fn at_observations(&self) -> bool
        ensures { result ≡ spec.is_observations (head_class self.now.rest.now) }
    {
        matches!(self.peek(), Some(TokenClass::Word(WordClass::Observations)))
    }

    /// Whether the next token is the word `enddd`.
    pub fn at_end_dd(&self) -> bool
        ensures { result ≡ spec.is_end_dd (head_class self.now.rest.now) }
    {
        matches!(self.peek(), Some(TokenClass::Word(WordClass::EndDd)))
    }

    /// Whether the next token is the word `endaction`.
    pub fn at_end_action(&self) -> bool
        ensures { result ≡ spec.is_end_action (head_class self.now.rest.now) }
    {
        matches!(self.peek(), Some(TokenClass::Word(WordClass::EndAction)))
    }

    /// Whether the next token is the word `endobserve`.
    pub fn at_end_observe(&self) -> bool
        ensures { result ≡ spec.is_end_observe (head_class self.now.rest.now) }
    {
        matches!(self.peek(), Some(TokenClass::Word(WordClass::EndObserve)))
    }

    /// Takes the next token, where there is one.
    pub fn take(&mut self) -> Span
        ensures front { result ≡ spec.front self.old.rest.now }
        ensures rest { self.new.rest.now ≡ spec.rest self.old.rest.now }
    {
        match self.rest {
            [] => Span { start: 0, end: 0 },
            [first, rest @ ..] => {
                self.rest = rest;
                first.span
            }
        }
    }

    /// The fault of the next token, which may not stand here.
    pub fn refuse(&self, end: u64) -> SyntaxError
        ensures { result ≡ spec.error_of (here end self.now.rest.now) }
    {
        match self.rest {
            [] => SyntaxError::Fault {
                at: end,
                kind: SyntaxKind::Unclosed,
            },
            [first, ..] => SyntaxError::Fault {
                at: first.span.start,
                kind: SyntaxKind::Unexpected,
            },
        }
    }

    /// The fault of the next token, with a kind of its own.
    pub fn refuse_as(&self, kind: SyntaxKind) -> SyntaxError
        ensures { result ≡ spec.error_of (here_as self.now.rest.now kind) }
    {
        match self.rest {
            [] => SyntaxError::Fault { at: 0, kind },
            [first, ..] => SyntaxError::Fault {
                at: first.span.start,
                kind,
            },
        }
    }

    /// Takes the next token where it fits, and else refuses it.
    #[tactic(auto, unfolding(crate::specs::Reading::expect))]
    pub fn expect(&mut self, fits: bool, end: u64) -> Result<Span, SyntaxError>
        ensures { GivesReading (spec.expect fits end self.old.rest.now) result self.new.rest.now }
    {
        if fits {
            Ok(self.take())
        } else {
            Err(self.refuse(end))
        }
    }
}
