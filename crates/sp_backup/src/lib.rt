//! Point-based backups (Spaan and Vlassis 2005) on decision diagrams, with floors in the stated order.
//!
//! `point_backup` answers what `sp_theory` calls the backup at a belief on an edition, with its floored one-step value;
//! `assemble` that value for given links.
#![tactic(auto)]

mod assembling;
mod backups;
mod choosing;
mod ends;
mod estimates;
mod linking;
mod models;
mod moving;
mod posteriors;
mod preparing;
mod projections;
mod promises;
mod pulling;
mod seeing;
mod setting;
mod stepping;
mod values;

pub use assembling::assemble;
pub use backups::point_backup;
pub use projections::Projections;
