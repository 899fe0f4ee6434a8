//! Lines of words that are separated by one space, written and read. Numbers are decimals without leading zeros, below 2^64.
#![tactic(auto)]

mod reading;
mod writing;

pub use reading::{
    behind, behind_space, first_line, first_number, number_of, one_number, pair_first, pairs_of,
    spaced_numbers, three_numbers, two_numbers,
};
pub use writing::{put, put_number, put_numbers};
