//! Tests of what the calls on functions of points ask for.
//!
//! Dense tables and decision diagrams have the same calls. Each function here tells whether a call may be made. The program
//! `sp_pointwise` makes each call on both forms, where its guards say that it may, and prints the answers at every point of small scopes.
#![tactic(auto)]

mod bounds;
pub mod diagrams;
pub mod scopes;
pub mod tables;
