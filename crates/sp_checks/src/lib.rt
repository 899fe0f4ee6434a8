//! From the parsed text of a model file to its model, or to the refusal that comes first.
//!
//! `specs/RefusalTable.antt` is the table of refusals, row by row: each row by itself, apart from the reading. `specs/Told.antt` says which model a
//! text tells. `model_of` answers the row with the least place, and at one place the one whose kind stands first in `sp_trees`'s
//! list, or the model where no row holds. The code judges the declarations in turn, then the sections, each item by item, then
//! what is missing at the end, and stops at the first that is refused: that is the least, since places rise through a text.
#![tactic(auto)]

mod accepted;
mod actions;
mod finish;
mod initial;
mod items;
mod laws;
mod reading;
mod roles;
mod sections;
mod state;

pub use accepted::Accepted;
pub use initial::{Factored, Share};
pub use items::{Listed, Tables};
pub use laws::one_refusal;
pub use reading::model_of;
pub use roles::Role;
pub use sp_declarations::ModelError;
pub use sp_trees::ModelKind;
pub use state::{Draft, Drafts, State};
