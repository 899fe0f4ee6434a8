//! Sampled beliefs: from the initial one on, by the actions of a chooser and by joint observations that the words of a random
//! generator draw.
//!
//! `specs/Sampled.antt` says which samples of `sp_theory` they are, and `specs/Words.antt` which words.
#![tactic(auto)]

mod draws;
mod sampling;
mod tables;

pub use sampling::{sample, sample_with};
