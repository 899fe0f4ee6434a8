//! The account of a replay: what is kept of a book while its events come, and the steps that keep it (point-based value iteration,
//! Spaan and Vlassis 2005). A planner's book and an audit stand on it.
//!
//! `specs/Accounts.antt` says what an account is and what an entering member changes, `specs/Choices.antt` what a settle chooses,
//! and `specs/Replayed.antt` what ties an account to the events so far.
#![tactic(auto)]

mod flags;
mod listed;
mod members;
mod opening;
mod worths;

pub use flags::{Choice, are_all_raised, choose, lift, raise};
pub use listed::ListedTask;
pub use members::{copies, drop_member, greatest_at, shared_edition, with_one_more};
pub use opening::{down_flags, first_edition, leaf_of, one_edition, zero_values};
pub use worths::{weigh, worth};
