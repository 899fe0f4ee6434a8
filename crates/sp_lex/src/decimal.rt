ghost use Rattle.std.specs.Prelude.{◌≡◌, ◌+◌, ◌*◌, ◌<◌, ◌≤◌, ◌==◌, min, option_map, length, drop, take_while};
ghost use Rattle.std.specs.List.{list_all};
ghost use Rattle.std.specs.Char.{is_ascii_digit};
ghost use Rattle.sp_lex.specs.Decimal.{decimal_of, decimal_of_parts, digit_at, is_whole_ticks, number_within_limit, number_from, number_of_first, signed_number, ticks_of};

use thiserror::Error;

/// Why a word is no number of ticks.
#[derive(Clone, Copy, Debug, PartialEq, Eq, Error)]
pub enum NumError {
    /// It isn't an optional `-`, and then at least one digit, behind which a point and any number of digits may
    /// stand, or a point and at least one digit.
    #[error("not a decimal number")]
    Shape,
    /// A digit behind the ninth place is not 0.
    #[error("a digit behind the ninth decimal place is not zero")]
    TooFine,
    /// The magnitude exceeds 10^9, which is 10^18 ticks.
    #[error("the magnitude exceeds 1000000000")]
    TooLarge,
}

/// What a word is made of: whether it is negative, its whole digits and those behind the point.
#[derive(Clone, Copy)]
pub struct Parts<'a> {
    pub negative: bool,
    pub whole: &'a [u8],
    pub places: &'a [u8],
}

/// How many ticks are 1.
const TICKS_PER_ONE: u64 = 1_000_000_000;

/// The greatest magnitude in ticks.
const MOST_TICKS: u64 = 1_000_000_000_000_000_000;

/// A whole number that is too large, in place of any larger one.
const TOO_LARGE: u64 = 2_000_000_000;

/// The number that digits stand for, or `TOO_LARGE` where it is more.
#[tactic(auto, using(crate::proofs::Digits::number_step))]
fn whole_number(digits: &[u8]) -> u64
    ensures value { result ≡ min TOO_LARGE (number_from 0 digits.now) }
    ensures bound { result ≤ TOO_LARGE }
{
    let mut number = 0;
    for byte in digits {
        let digit = u64::from(*byte).saturating_sub(48);
        number = (number * 10 + digit).min(TOO_LARGE);
    }
    number
}

/// The digit at a place, and zero behind the last.
fn digit_at(digits: &[u8], place: usize) -> u64
    ensures value { result ≡ digit_at digits.now place }
    ensures bound { result ≤ 207 }
{
    u64::from(digits.get(place).copied().unwrap_or(b'0')).saturating_sub(48)
}

/// The number that the first nine digits stand for, with zeros behind the last.
#[tactic(auto, using(crate::proofs::Digits::first_more, crate::proofs::Digits::tens_start, crate::proofs::Digits::tens_more, crate::proofs::Digits::tens_most))]
fn nine_places(places: &[u8]) -> u64
    ensures value { result ≡ number_of_first 9 places.now }
    ensures bound { result < 25000000000 }
{
    let mut number = 0;
    for place in 0..9usize {
        number = number * 10 + digit_at(places, place);
    }
    number
}

fn digit_count(bytes: &[u8]) -> usize
    ensures value { result ≡ length (take_while is_ascii_digit bytes.now) }
    ensures within { result ≤ length bytes.now }
{
    bytes
        .iter()
        .take_while(|byte| byte.is_ascii_digit())
        .count()
}

fn are_digits(bytes: &[u8]) -> bool
    ensures { result ≡ list_all is_ascii_digit bytes.now }
{
    bytes.iter().all(|byte| byte.is_ascii_digit())
}

/// Whether the digits behind the ninth place are zeros.
fn is_whole_ticks(places: &[u8]) -> bool
    ensures { result ≡ is_whole_ticks places.now }
{
    places.iter().skip(9).all(|byte| *byte == b'0')
}

/// What a word is made of, if it has the shape of a decimal.
#[tactic(auto, unfolding(crate::specs::Decimal::decimal_of))]
fn split(word: &[u8]) -> Option<Parts<'_>>
    ensures { option_map decimal_of_parts result ≡ decimal_of word.now }
{
    let (negative, unsigned) = match word {
        [b'-', unsigned @ ..] => (true, unsigned),
        _ => (false, word),
    };
    let (whole, tail) = unsigned.split_at(digit_count(unsigned));
    match tail {
        [] => {
            if whole.is_empty() {
                None
            } else {
                Some(Parts {
                    negative,
                    whole,
                    places: tail,
                })
            }
        }
        [b'.', places @ ..] => {
            if are_digits(places) && !(whole.is_empty() && places.is_empty()) {
                Some(Parts {
                    negative,
                    whole,
                    places,
                })
            } else {
                None
            }
        }
        _ => None,
    }
}

/// A magnitude with its sign.
fn signed(negative: bool, magnitude: u64) -> i128
    ensures { result ≡ signed_number negative magnitude }
{
    let ticks = i128::from(magnitude);
    if negative { -ticks } else { ticks }
}

/// The ticks of whole digits and nine places.
#[tactic(auto, using(crate::proofs::Digits::limited_same))]
fn limited(negative: bool, whole: &[u8], places: &[u8]) -> Result<i128, NumError>
    ensures { result ≡ number_within_limit negative (number_from 0 whole.now * TICKS_PER_ONE + number_of_first 9 places.now) }
{
    let magnitude = whole_number(whole) * TICKS_PER_ONE + nine_places(places);
    if magnitude > MOST_TICKS {
        Err(NumError::TooLarge)
    } else {
        Ok(signed(negative, magnitude))
    }
}

/// The decimal that a word is, in ticks of 10^-9.
///
/// A word that isn't a decimal is of the wrong shape, a decimal that is no whole number of ticks is too fine, and any
/// other of a magnitude above 10^18 ticks is too large.
#[tactic(auto, unfolding(crate::specs::Decimal::ticks_of))]
pub fn ticks(word: &[u8]) -> Result<i128, NumError>
    ensures { result ≡ ticks_of word.now }
{
    let parts = split(word).ok_or(NumError::Shape)?;
    if is_whole_ticks(parts.places) {
        limited(parts.negative, parts.whole, parts.places)
    } else {
        Err(NumError::TooFine)
    }
}
