//! Hashes of parts.
ghost use Rattle.std.specs.Prelude.{◌≡◌, ◌/◌};
ghost use Rattle.sp_dd.specs.Hashes.{mixed, part_hash, leaf_hash};

use crate::part::Part;

const ZERO: i128 = 9223372036854775808;

const FAR: i128 = 85070591730234615865843651857942052864;

const SPREAD: u64 = 0x9e37_79b9_7f4a_7c15;

/// A hash with one more word.
#[inline(always)]
pub fn mix(hash: u64, word: u64) -> u64
    ensures { result ≡ mixed hash word }
{
    (hash ^ word).wrapping_mul(SPREAD)
}

/// A hash with one more part.
#[inline(always)]
pub fn mix_part(hash: u64, part: &Part) -> u64
    ensures { result ≡ part_hash hash part.now }
{
    match part {
        Part::Leaf(value) => mix(hash, leaf_word(*value)),
        Part::At(at) => mix(hash, *at as u64),
    }
}

/// The word of a leaf in a hash.
#[inline(always)]
fn leaf_word(value: i128) -> u64
    ensures { result ≡ leaf_hash value }
{
    if value < FAR {
        return ((value + ZERO).unsigned_abs() % 18446744073709551616) as u64;
    }
    ((value.unsigned_abs() + 9223372036854775808) % 18446744073709551616) as u64
}

/// The half of a hash by which entries are found.
#[inline(always)]
pub fn upper(hash: u64) -> u32
    ensures { result ≡ hash / 4294967296 }
{
    (hash >> 32) as u32
}
