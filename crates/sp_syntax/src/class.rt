//! What each token is to the grammar.

ghost use Rattle.std.specs.Prelude.{◌≡◌, ◌<◌, ◌≤◌, ℕ, All, IfErr, IfOk, length};
ghost use Rattle.std.specs.Str.{bytes_eq};
ghost use Rattle.sp_syntax.specs.Classes as spec;
ghost use Rattle.sp_syntax.specs.Classes.{IsSpanWithin, text_of};

use crate::error::SyntaxError;
use sp_lex::{Span, Token, TokenKind, Tokens};
use std::alloc::Global;

/// A word: a keyword, or what else it may stand for.
#[derive(Clone, Copy)]
pub enum WordClass {
    Name,
    Number,
    /// The word `-` alone, which is a number by its first byte.
    Minus,
    Variables,
    Observations,
    Init,
    Dd,
    EndDd,
    Action,
    EndAction,
    Observe,
    EndObserve,
    Cost,
    Reward,
    Discount,
    Horizon,
    Tolerance,
    Unnormalized,
}

/// A token, as the grammar sees it.
#[derive(Clone, Copy)]
pub enum TokenClass {
    Open,
    Close,
    LeftSquare,
    RightSquare,
    Word(WordClass),
    /// A primed name.
    Primed,
    Plus,
    Star,
    Hash,
    Slash,
    /// A token that stands in no production.
    Other,
}

/// A token's class and its place.
#[derive(Clone, Copy)]
pub struct Classed {
    pub class: TokenClass,
    pub span: Span,
}

/// Whether the word is that text.
fn is_text(word: &[u8], text: &str) -> bool
    ensures { result ≡ bytes_eq word.now text.now }
{
    word == text.as_bytes()
}

/// The class of a word.
#[tactic(auto, unfolding(crate::specs::Classes::word_class))]
fn word_class(word: &[u8]) -> WordClass
    ensures { result ≡ spec.word_class word.now }
{
    if let Some(keyword) = section_keyword(word) {
        return keyword;
    }
    if let Some(keyword) = inner_keyword(word) {
        return keyword;
    }
    match word.first().copied() {
        Some(first) => {
            if first.is_ascii_alphabetic() || first == b'_' {
                WordClass::Name
            } else if is_text(word, "-") {
                WordClass::Minus
            } else {
                WordClass::Number
            }
        }
        None => WordClass::Number,
    }
}

/// The keyword that begins a section, where the word is one.
#[tactic(auto, unfolding(crate::specs::Classes::section_keyword))]
fn section_keyword(word: &[u8]) -> Option<WordClass>
    ensures { result ≡ spec.section_keyword word.now }
{
    if is_text(word, "init") {
        Some(WordClass::Init)
    } else if is_text(word, "dd") {
        Some(WordClass::Dd)
    } else if is_text(word, "action") {
        Some(WordClass::Action)
    } else if is_text(word, "reward") {
        Some(WordClass::Reward)
    } else if is_text(word, "discount") {
        Some(WordClass::Discount)
    } else if is_text(word, "horizon") {
        Some(WordClass::Horizon)
    } else if is_text(word, "tolerance") {
        Some(WordClass::Tolerance)
    } else if is_text(word, "unnormalized") {
        Some(WordClass::Unnormalized)
    } else {
        None
    }
}

/// Any other keyword, where the word is one.
#[tactic(auto, unfolding(crate::specs::Classes::inner_keyword))]
fn inner_keyword(word: &[u8]) -> Option<WordClass>
    ensures { result ≡ spec.inner_keyword word.now }
{
    if is_text(word, "variables") {
        Some(WordClass::Variables)
    } else if is_text(word, "observations") {
        Some(WordClass::Observations)
    } else if is_text(word, "enddd") {
        Some(WordClass::EndDd)
    } else if is_text(word, "endaction") {
        Some(WordClass::EndAction)
    } else if is_text(word, "observe") {
        Some(WordClass::Observe)
    } else if is_text(word, "endobserve") {
        Some(WordClass::EndObserve)
    } else if is_text(word, "cost") {
        Some(WordClass::Cost)
    } else {
        None
    }
}

/// The class of a primed word, given without its quote.
#[tactic(auto, unfolding(crate::specs::Classes::primed_class))]
fn primed_class(word: &[u8]) -> TokenClass
    ensures { result ≡ spec.primed_class word.now }
{
    match word_class(word) {
        WordClass::Name => TokenClass::Primed,
        _ => TokenClass::Other,
    }
}

/// The class of a mark.
#[tactic(auto, unfolding(crate::specs::Classes::mark_class))]
fn mark_class(mark: &[u8]) -> TokenClass
    ensures { result ≡ spec.mark_class mark.now }
{
    match mark {
        [b'+'] => TokenClass::Plus,
        [b'*'] => TokenClass::Star,
        [b'#'] => TokenClass::Hash,
        [b'/'] => TokenClass::Slash,
        _ => TokenClass::Other,
    }
}

/// The bytes of a span.
fn text_of(source: &[u8], span: Span) -> &[u8]
    requires { IsSpanWithin (length source.now) span }
    ensures { result.now ≡ text_of source.now span }
{
    &source[span.start as usize..span.end as usize]
}

/// A text without its last byte.
fn without_last(text: &[u8]) -> &[u8]
    ensures { result.now ≡ spec.without_last text.now }
{
    match text {
        [front @ .., _] => front,
        [] => text,
    }
}

/// A token with its class.
#[tactic(auto, unfolding(crate::specs::Classes::class_of))]
fn with_class(source: &[u8], token: Token) -> Classed
    requires { IsSpanWithin (length source.now) token.span }
    ensures { result ≡ spec.with_class source.now token }
{
    let text = text_of(source, token.span);
    let class = match token.kind {
        TokenKind::LeftRound => TokenClass::Open,
        TokenKind::RightRound => TokenClass::Close,
        TokenKind::LeftSquare => TokenClass::LeftSquare,
        TokenKind::RightSquare => TokenClass::RightSquare,
        TokenKind::Word => TokenClass::Word(word_class(text)),
        TokenKind::Primed => primed_class(without_last(text)),
        TokenKind::Mark => mark_class(text),
    };
    Classed {
        class,
        span: token.span,
    }
}

/// The tokens, each with its class.
#[tactic(auto, using(crate::proofs::ClassSteps::classes_more))]
pub fn classes(alloc: Global, source: &[u8], tokens: &Tokens) -> Result<Vec<Classed>, SyntaxError>
    requires { All (λ t. IsSpanWithin (length source.now) t.span) tokens.now }
    ensures ok { IfOk result (λ list. list.items ≡ spec.classes source.now tokens.now) }
    ensures error { IfErr result (λ e. e ≡ SyntaxError.NoMemory) }
{
    let mut list = Vec::new(alloc);
    let count = tokens.len();
    for place in 0..count {
        list.push(with_class(source, *tokens.at(place)))?;
    }
    Ok(list)
}
