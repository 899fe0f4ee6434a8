//! Snapshots of the newest published edition, which readers look at without waiting.
//!
//! One publisher makes a list of editions, and several viewers look at its newest one. Contracts see of a publisher, a viewer
//! and a notice which list it belongs to, and what it knows of that list: `specs/Published.antt`. The list's rule is kept by a
//! log that exists in proofs alone (`logbook`); the editions themselves reach the viewers by `left_right`, which keeps two
//! copies of the newest notice, so that no look waits for the publisher. `specs/Snapshot.antt` is the rule of these looks.
#![tactic(auto)]

mod beside;
mod draft;
mod item;
mod laws;
mod log;
mod notice;
mod opening;
mod publisher;
mod snapshot;
mod viewer;

pub use beside::{Beside, ListName};
pub use item::Item;
pub use laws::lists_never_go_back;
pub use notice::Notice;
pub use opening::begin;
pub use publisher::Publisher;
pub use viewer::Viewer;
