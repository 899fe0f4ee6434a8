//! Words of a source, and names.

ghost use Rattle.std.specs.Prelude.{◌≡◌, ◌<◌, length, IfSome};
ghost use Rattle.std.specs.Str.{bytes_eq};
ghost use Rattle.sp_trees.specs.Words as spec;

use sp_lex::Span;
use sp_model::Name;

/// The bytes of a span; where it ends behind the source's last byte, those that are there. Takes no memory.
pub fn text<'a>(source: &'a [u8], span: Span) -> &'a [u8]
    ensures { result.now ≡ spec.text source.now span }
{
    let end = (span.end as usize).min(source.len());
    let start = (span.start as usize).min(end);
    &source[start..end]
}

/// Whether a word is that name.
pub(crate) fn is_named(name: &Name, word: &[u8]) -> bool
    ensures { result ≡ bytes_eq name.now word.now }
{
    name.bytes() == word
}

fn place_named(names: &[Name], word: &[u8]) -> Option<usize>
    ensures value { result ≡ spec.number_of names.now word.now }
    ensures within { IfSome result (λ k. k < length names.now) }
{
    names.iter().position(|name| is_named(name, word))
}

/// The number of a word among names. Takes no memory.
pub fn number_of(names: &[Name], word: &[u8]) -> Option<u64>
    ensures value { result ≡ spec.number_of names.now word.now }
    ensures within { IfSome result (λ k. k < length names.now) }
{
    match place_named(names, word) {
        Some(place) => Some(place as u64),
        None => None,
    }
}

/// The word of a variable in a node; a primed one ends with a `'` that isn't part of the name.
pub(crate) fn name_span(is_primed: bool, span: Span) -> Span
    ensures { result ≡ spec.name_span is_primed span }
{
    if is_primed {
        Span {
            start: span.start,
            end: span.end.saturating_sub(1),
        }
    } else {
        span
    }
}
