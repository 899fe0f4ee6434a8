//! The declarations of a model text: its variables and observation variables with their values, within the limits.
//!
//! Parts are judged in turn, and the first that is refused decides: `specs/Steps.antt` says how they follow one another.
#![tactic(auto)]

mod declarations;
mod error;
mod laws;

pub use declarations::{Declared, Limits, Read, declarations_of};
pub use error::{ModelError, refuse};
pub use laws::{declarations_are_told, rows_are_refusals};
