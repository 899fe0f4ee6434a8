//! Names numbered from 0 in the order of their declarations.
//!
//! Names are found by their hash, so that a text of many declarations is read in time that grows with its length.
#![tactic(auto)]

mod names;

pub use names::Names;
