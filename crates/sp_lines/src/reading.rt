//! Lines and numbers as they are read.

ghost use Rattle.std.specs.Prelude.{◌≡◌, ◌≢◌, ℕ, ◌<◌, ◌≤◌, ◌^◌, ◌++◌, ◌∷◌, [], List, length, take, drop, Some, None, Ok, IfOk, MatchOption, IfSome};
ghost use Rattle.std.specs.Str.Parse.{AllDigits, digits_value};
ghost use Rattle.std.specs.Fmt.{decimal};
ghost use Rattle.std.specs.List.{AllByRecursion};
ghost use Rattle.sp_lines.specs.Lines.{numbers_behind_spaces, spaced_pairs, IsSmall, IsSmallPair, BeginsNoDigit, BeginsNumber, BeginsSpaced, BeginsPair, BeginsLine, Lacks};

use memchr::memchr;
use sp_dd::{Ids, NoMemory, Pairs};
use std::alloc::Global;

/// The line that a text begins with, without its end, and what stands behind that; none where no line ends.
pub fn first_line(text: &[u8]) -> Option<(&[u8], &[u8])>
    ensures { MatchOption result (Lacks 10 text.now) (λ r. BeginsLine text.now r.0.now r.1.now) }
{
    let end = memchr(b'\n', text)?;
    Some((&text[..end], &text[end + 1..]))
}

/// The number of which these digits are the decimal.
pub fn number_of(digits: &[u8]) -> Option<u64>
    requires { AllDigits 10 digits.now }
    ensures { MatchOption result ((n : ℕ) → IsSmall n → digits.now ≢ decimal n) (λ n. digits.now ≡ decimal n) }
{
    if digits.is_empty() {
        return None;
    }
    if digits[0] == b'0' && digits.len() > 1 {
        return None;
    }
    value_of(digits)
}

/// The number that digits write.
fn value_of(digits: &[u8]) -> Option<u64>
    requires { AllDigits 10 digits.now }
    ensures { MatchOption result (2 ^ 64 ≤ digits_value 10 digits.now) (λ n. n ≡ digits_value 10 digits.now) }
{
    let mut value: u64 = 0;
    for digit in digits {
        let Some(tens) = value.checked_mul(10) else {
            return None;
        };
        let Some(more) = tens.checked_add(u64::from(*digit - b'0')) else {
            return None;
        };
        value = more;
    }
    Some(value)
}

/// How many digits stand first.
fn digits_first(text: &[u8]) -> usize
    ensures within { result ≤ length text.now }
    ensures digits { AllDigits 10 (take result text.now) }
    ensures ends { BeginsNoDigit (drop result text.now) }
{
    for (place, byte) in text.iter().enumerate() {
        if *byte < b'0' || b'9' < *byte {
            return place;
        }
    }
    text.len()
}

/// The number that a text begins with, up to the first byte that is no digit, and what stands behind it.
pub fn first_number(text: &[u8]) -> Option<(u64, &[u8])>
    ensures { MatchOption result ((n : ℕ) (rest : List ℕ) → ¬ (BeginsNumber text.now n rest)) (λ r. BeginsNumber text.now r.0 r.1.now) }
{
    let count = digits_first(text);
    let (digits, rest) = text.split_at(count);
    match number_of(digits) {
        Some(number) => Some((number, rest)),
        None => None,
    }
}

/// The numbers that a text lists, each behind a space; none where it is no such list.
pub fn spaced_numbers(alloc: Global, text: &[u8]) -> Result<Option<Ids>, NoMemory>
    ensures { IfOk result (λ found. MatchOption found ((ns : List ℕ) → AllByRecursion IsSmall ns → text.now ≢ numbers_behind_spaces ns) (λ ns. (text.now ≡ numbers_behind_spaces ns) × AllByRecursion IsSmall ns)) }
{
    let mut numbers = Ids::new(alloc);
    let mut rest = text;
    while !rest.is_empty() {
        match behind_space(rest) {
            Some((number, more)) => {
                numbers.push(number)?;
                rest = more;
            }
            None => return Ok(None),
        }
    }
    Ok(Some(numbers))
}

/// The number that stands behind a space, and what comes after it.
pub fn behind_space(text: &[u8]) -> Option<(u64, &[u8])>
    ensures { MatchOption result ((n : ℕ) (rest : List ℕ) → ¬ (BeginsSpaced text.now n rest)) (λ r. BeginsSpaced text.now r.0 r.1.now) }
{
    let (first, rest) = text.split_first()?;
    if *first == b' ' {
        first_number(rest)
    } else {
        None
    }
}

/// What a text has behind a word, where it begins with that word.
pub fn behind<'a>(text: &'a [u8], word: &[u8]) -> Option<&'a [u8]>
    ensures { MatchOption result ((rest : List ℕ) → text.now ≢ word.now ++ rest) (λ rest. text.now ≡ word.now ++ rest.now) }
{
    text.strip_prefix(word)
}

/// The one number that a text lists behind a space.
pub fn one_number(text: &[u8]) -> Option<u64>
    ensures { MatchOption result ((x : ℕ) → IsSmall x → text.now ≢ numbers_behind_spaces (x ∷ [])) (λ x. IsSmall x × (text.now ≡ numbers_behind_spaces (x ∷ []))) }
{
    let (number, rest) = behind_space(text)?;
    if rest.is_empty() { Some(number) } else { None }
}

/// The two numbers that a text lists, each behind a space.
pub fn two_numbers(text: &[u8]) -> Option<(u64, u64)>
    ensures { MatchOption result ((x y : ℕ) → IsSmall x → IsSmall y → text.now ≢ numbers_behind_spaces (x ∷ y ∷ [])) (λ r. IsSmall r.0 × IsSmall r.1 × (text.now ≡ numbers_behind_spaces (r.0 ∷ r.1 ∷ []))) }
{
    let (first, rest) = behind_space(text)?;
    match one_number(rest) {
        Some(second) => Some((first, second)),
        None => None,
    }
}

/// The three numbers that a text lists, each behind a space.
pub fn three_numbers(text: &[u8]) -> Option<(u64, u64, u64)>
    ensures { MatchOption result ((x y z : ℕ) → IsSmall x → IsSmall y → IsSmall z → text.now ≢ numbers_behind_spaces (x ∷ y ∷ z ∷ [])) (λ r. IsSmall r.0 × IsSmall r.1 × IsSmall r.2 × (text.now ≡ numbers_behind_spaces (r.0 ∷ r.1 ∷ r.2 ∷ []))) }
{
    let (first, rest) = behind_space(text)?;
    match two_numbers(rest) {
        Some((second, third)) => Some((first, second, third)),
        None => None,
    }
}

/// The pairs of numbers that a text lists, each number behind a space; none where it is no such list.
pub fn pairs_of(alloc: Global, text: &[u8]) -> Result<Option<Pairs>, NoMemory>
    ensures { IfOk result (λ found. MatchOption found ((ps : List (ℕ × ℕ)) → AllByRecursion IsSmallPair ps → text.now ≢ spaced_pairs ps) (λ ps. (text.now ≡ spaced_pairs ps) × AllByRecursion IsSmallPair ps)) }
{
    let mut pairs = Pairs::new(alloc);
    let mut rest = text;
    while !rest.is_empty() {
        match pair_first(rest) {
            Some((pair, more)) => {
                pairs.push(pair)?;
                rest = more;
            }
            None => return Ok(None),
        }
    }
    Ok(Some(pairs))
}

/// The pair of numbers that a text begins with, each behind a space, and what comes after it.
pub fn pair_first(text: &[u8]) -> Option<((u64, u64), &[u8])>
    ensures { MatchOption result ((x y : ℕ) (rest : List ℕ) → ¬ (BeginsPair text.now x y rest)) (λ r. BeginsPair text.now r.0.0 r.0.1 r.1.now) }
{
    let (first, middle) = behind_space(text)?;
    match behind_space(middle) {
        Some((second, rest)) => Some(((first, second), rest)),
        None => None,
    }
}
