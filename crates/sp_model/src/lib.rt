//! Factored models: their data, and what their type keeps.
//!
//! A `Model` is made of `Parts` that the checks have judged, and contracts see it as these parts. `specs/Problem.antt` says
//! which problem of `sp_theory` it is; all bounds and laws of that problem hold of each `Model`.
#![tactic(auto)]

mod beliefs;
mod comparing;
mod counting;
mod factored;
mod laws;
mod names;
mod parts;
mod range;
mod sequence;

pub use beliefs::{Sample, SampleList, Samples, Weights};
pub use factored::Model;
pub use laws::{dots_are_the_same, models_are_lawful, models_have_initial, returns_are_bounded};
pub use names::Name;
pub use parts::{ActionPart, Actions, Decl, Decls, Factor, Factors, Funcs, Names, Parts};
pub use sequence::Sequence;
// The two lines that name how functions are stored.
pub use sp_dd::Diagram as Func;
pub use sp_ddops as functions;
