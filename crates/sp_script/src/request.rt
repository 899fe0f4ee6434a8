//! What a line asks for.

ghost use Rattle.std.specs.Prelude.{◌≡◌, ◌<◌, ◌≤◌, length, position, All, MatchOption, None, Some, option_map, slice_index_or, []};
ghost use Rattle.std.specs.List.{list_all};
ghost use Rattle.std.specs.Str.{bytes_eq};
ghost use Rattle.sp_theory.specs.Points.{count_of};
ghost use Rattle.sp_model.specs.Kept.{IsDecl};
ghost use Rattle.sp_model.specs.Problem.{no_decl, sizes_of};
ghost use Rattle.sp_model.specs.Words.{is_word_byte};
ghost use Rattle.sp_script.specs.Lines.{texts};
ghost use Rattle.sp_script.specs.Requests.{is_session_name, observation_of, request_of, verb_by};
ghost use Rattle.sp_script.specs.PlainRequests.{plain_request};

use sp_model::{Decl, Name};

/// What is asked for.
#[derive(Clone, Copy)]
pub enum Verb {
    Opening,
    Asking,
    /// With the number of the joint observation, if each value is its observation variable's.
    Observing(Option<u64>),
    Syncing,
    Closing,
}

/// What a line asks for, and the name of the session.
#[derive(Clone, Copy)]
pub struct Request<'a> {
    pub verb: Verb,
    pub name: &'a [u8],
}

/// Whether a session may have that name: 1 to 64 ASCII letters, digits, `_`, `-` or `.`.
fn is_session_name(name: &[u8]) -> bool
    ensures { result ≡ is_session_name name.now }
{
    0 < name.len() && name.len() <= 64 && are_word_bytes(name)
}

fn is_word_byte(byte: u8) -> bool
    ensures { result ≡ is_word_byte byte }
{
    byte.is_ascii_alphanumeric() || byte == b'_' || byte == b'-' || byte == b'.'
}

fn are_word_bytes(bytes: &[u8]) -> bool
    ensures { result ≡ list_all is_word_byte bytes.now }
{
    bytes.iter().all(|byte| is_word_byte(*byte))
}

/// The place of a value among the names of values.
fn place_of(value: &[u8], names: &[Name]) -> Option<usize>
    ensures { result ≡ position (λ name. bytes_eq name value.now) names.now }
{
    names.iter().position(|name| name.bytes() == value)
}

/// The word at a place.
fn word_at<'a>(words: &[&'a [u8]], place: usize) -> &'a [u8]
    requires { place < length words.now }
    ensures { result.now ≡ slice_index_or (texts words.now) place [] }
{
    words[place]
}

/// The place of the value that an observation variable has among these, one for each, in order.
fn place_at(sights: &[Decl], values: &[&[u8]], variable: usize) -> Option<usize>
    requires sight { variable < length sights.now }
    requires value { variable < length values.now }
    ensures { result ≡ position (λ name. bytes_eq name (slice_index_or (texts values.now) variable [])) (slice_index_or sights.now variable no_decl).values }
{
    place_of(
        word_at(values, variable),
        sights[variable].values.as_slice(),
    )
}

/// The number of the joint observation of one value for each observation variable, in order.
fn observation_of(sights: &[Decl], values: &[&[u8]]) -> Option<u64>
    requires declared { All IsDecl sights.now }
    requires few { count_of (sizes_of sights.now) ≤ 4096 }
    requires each { length values.now ≡ length sights.now }
    ensures { result ≡ observation_of sights.now (texts values.now) }
{
    let mut number = 0;
    for variable in 0..values.len() {
        let place = place_at(sights, values, variable)?;
        number = number * sights[variable].values.len() + place as u64;
    }
    Some(number)
}

/// What the first word of a line asks for, with the words behind the session's name.
fn verb_by(sights: &[Decl], word: &[u8], values: &[&[u8]]) -> Option<Verb>
    requires declared { All IsDecl sights.now }
    requires few { count_of (sizes_of sights.now) ≤ 4096 }
    ensures { result ≡ verb_by sights.now word.now (texts values.now) }
{
    if word == b"observe".as_slice() {
        if values.len() == sights.len() {
            Some(Verb::Observing(observation_of(sights, values)))
        } else {
            None
        }
    } else if !values.is_empty() {
        None
    } else if word == b"open".as_slice() {
        Some(Verb::Opening)
    } else if word == b"act".as_slice() {
        Some(Verb::Asking)
    } else if word == b"sync".as_slice() {
        Some(Verb::Syncing)
    } else if word == b"close".as_slice() {
        Some(Verb::Closing)
    } else {
        None
    }
}

/// What a line of these words asks for, if it is of the grammar.
pub fn request_of<'a>(sights: &[Decl], words: &[&'a [u8]]) -> Option<Request<'a>>
    requires declared { All IsDecl sights.now }
    requires few { count_of (sizes_of sights.now) ≤ 4096 }
    ensures { option_map plain_request result ≡ request_of sights.now (texts words.now) }
{
    if words.len() < 2 {
        return None;
    }
    let name = word_at(words, 1);
    if !is_session_name(name) {
        return None;
    }
    match verb_by(sights, word_at(words, 0), &words[2..]) {
        Some(verb) => Some(Request { verb, name }),
        None => None,
    }
}
