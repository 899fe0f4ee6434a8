//! What the form of lines depends on.

/// How many sampled beliefs, actions and joint observations there are.
#[derive(Clone, Copy, Drop)]
pub(crate) struct Sizes {
    pub beliefs: u64,
    pub actions: u64,
    pub joint: u64,
}
