//! What was read so far.

use sp_model::{Factors, Funcs, Name, Sequence};
use sp_names::Names;
use sp_trees::{Env, Shared};

/// An action whose tables were read.
#[derive(Drop)]
pub struct Draft {
    pub name: Name,
    pub cost: Option<Shared>,
    /// A table for each state variable.
    pub moves: Funcs,
    /// A table for each observation variable.
    pub sights: Funcs,
}

pub type Drafts = Sequence<Draft>;

/// What the sections gave so far.
#[derive(Drop)]
pub struct State<'a> {
    pub env: Env<'a>,
    /// The names of the actions.
    pub names: Names<'a>,
    pub actions: Drafts,
    pub init: Option<Factors>,
    pub reward: Option<Shared>,
    /// In ticks.
    pub discount: Option<u64>,
}
