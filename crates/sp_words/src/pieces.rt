//! Reads the words behind a command into pieces.

ghost use Rattle.std.specs.Prelude.{◌≡◌, ℕ, List, [], ◌∷◌, Option, Some, None, map, IfOk, MatchOption, string_bytes, bytes_eq, Err, length, nat_eq, option_map};
ghost use Rattle.std.specs.List.{list_any};
ghost use Rattle.sp_words.specs.Items.{is_name, items_on, places, values, times_flagged, IsPlaced, IsNumberWord, OptionHasNumber, HasFile};
ghost use Rattle.sp_words.specs.Pieces.{item_of, names_of};

use crate::job::WordsError;
use std::alloc::{AllocError, Global};

/// A word that stands by itself, the name of a flag, or an option's name with its value.
#[derive(Clone, Copy)]
pub enum Piece<'a> {
    Placed(&'a str),
    Flagged(&'a str),
    Valued(&'a str, &'a str),
}

/// Whether the word is the name of an option.
pub fn is_name(word: &str) -> bool
    ensures { result ≡ is_name word.now }
{
    word.as_bytes().first() == Some(&b'-')
}

/// The word, if it can stand by itself.
pub fn placed(word: &str) -> Option<&str>
    ensures { MatchOption result (¬ (IsPlaced word.now)) (λ s. (s.now ≡ word.now) × IsPlaced word.now) }
{
    if word.is_empty() || is_name(word) {
        None
    } else {
        Some(word)
    }
}

/// Whether the word is one of these names.
#[tactic(auto, using(crate::proofs::WordLemmas::drop_item))]
fn is_one_of(word: &str, names: &[&str]) -> bool
    ensures { result ≡ list_any (bytes_eq word.now) (map (λ o. o.now) names.now) }
{
    for name in names {
        if word == *name {
            return true;
        }
    }
    false
}

/// The pieces of the words behind a command, which has these options and flags.
#[tactic(auto, using(crate::proofs::WordLemmas::drop_item))]
pub fn pieces_of<'a>(
    alloc: Global,
    words: &'a [String],
    options: &[&str],
    flags: &[&str],
) -> Result<Vec<Piece<'a>>, WordsError>
    ensures ok { IfOk result (λ v. items_on (names_of options.now flags.now) [] None (map string_bytes words.now) ≡ Some (map item_of v.items)) }
    ensures not_words { result ≡ Err WordsError.Usage → items_on (names_of options.now flags.now) [] None (map string_bytes words.now) ≡ None }
{
    let mut pieces = Vec::new(alloc);
    let mut pending: Option<&'a str> = None;
    for word in words {
        let word = word.as_str();
        if let Some(name) = pending {
            pieces
                .push(Piece::Valued(name, word))
                .map_err(AllocError::from)?;
            pending = None;
        } else if is_name(word) {
            if is_one_of(word, flags) {
                pieces.push(Piece::Flagged(word)).map_err(AllocError::from)?;
            } else if is_one_of(word, options) {
                pending = Some(word);
            } else {
                return Err(WordsError::Usage);
            }
        } else if word.is_empty() {
            return Err(WordsError::Usage);
        } else {
            pieces.push(Piece::Placed(word)).map_err(AllocError::from)?;
        }
    }
    if pending.is_some() {
        return Err(WordsError::Usage);
    }
    Ok(pieces)
}

/// The one word that stands by itself, if there is one and no more.
#[tactic(auto, using(crate::proofs::WordLemmas::drop_item))]
pub fn only_place<'a>(pieces: &[Piece<'a>]) -> Option<&'a str>
    ensures { MatchOption result ((word : List ℕ) → ¬ (places (map item_of pieces.now) ≡ word ∷ [])) (λ s. places (map item_of pieces.now) ≡ s.now ∷ []) }
{
    let mut found = None;
    for piece in pieces {
        if let Piece::Placed(word) = piece {
            if found.is_some() {
                return None;
            }
            found = Some(*word);
        }
    }
    found
}

/// How often a flag stands there.
#[tactic(auto, using(crate::proofs::WordLemmas::drop_item))]
pub fn flag_count(pieces: &[Piece<'_>], flag: &str) -> u64
    ensures { result ≡ times_flagged flag.now (map item_of pieces.now) }
{
    let mut count = 0;
    for piece in pieces {
        if let Piece::Flagged(name) = piece {
            if *name == flag {
                count += 1;
            }
        }
    }
    count
}

/// Whether an option isn't there.
#[tactic(auto, using(crate::proofs::WordLemmas::drop_item))]
pub fn lacks(pieces: &[Piece<'_>], option: &str) -> bool
    ensures { result ≡ nat_eq (length (values option.now (map item_of pieces.now))) 0 }
{
    for piece in pieces {
        if let Piece::Valued(name, _) = piece {
            if *name == option {
                return false;
            }
        }
    }
    true
}

/// The one value of an option, if there is one and no more.
#[tactic(auto, using(crate::proofs::WordLemmas::drop_item))]
pub fn only_value<'a>(pieces: &[Piece<'a>], option: &str) -> Option<&'a str>
    ensures { MatchOption result ((word : List ℕ) → ¬ (values option.now (map item_of pieces.now) ≡ word ∷ [])) (λ s. values option.now (map item_of pieces.now) ≡ s.now ∷ []) }
{
    let mut found = None;
    for piece in pieces {
        if let Piece::Valued(name, value) = piece {
            if *name == option {
                if found.is_some() {
                    return None;
                }
                found = Some(*value);
            }
        }
    }
    found
}

/// The file that an option names, or that it names none; nothing where it says something else.
pub fn file_of<'a>(pieces: &[Piece<'a>], option: &str) -> Option<Option<&'a str>>
    ensures { MatchOption result ((file : Option (List ℕ)) → ¬ (HasFile (map item_of pieces.now) option.now file)) (λ file. HasFile (map item_of pieces.now) option.now (option_map (λ s. s.now) file)) }
{
    if lacks(pieces, option) {
        return Some(None);
    }
    let word = only_value(pieces, option)?;
    let file = placed(word)?;
    Some(Some(file))
}

/// The number of an option between these two, if it is there once with one.
pub fn number_of(pieces: &[Piece<'_>], option: &str, low: u64, high: u64) -> Option<u64>
    ensures { MatchOption result ((n : ℕ) → ¬ (OptionHasNumber (map item_of pieces.now) option.now low high n)) (λ n. OptionHasNumber (map item_of pieces.now) option.now low high n) }
{
    number_in(only_value(pieces, option)?, low, high)
}

/// The number of one to twenty digits between these two, if the text is one.
pub fn number_in(text: &str, low: u64, high: u64) -> Option<u64>
    ensures { MatchOption result ((n : ℕ) → ¬ (IsNumberWord low high text.now n)) (λ n. IsNumberWord low high text.now n) }
{
    if text.len() > 20 || text.as_bytes().first() == Some(&b'+') {
        return None;
    }
    match text.parse::<u64>() {
        Err(_) => None,
        Ok(n) => { if n < low || high < n { None } else { Some(n) } }
    }
}
