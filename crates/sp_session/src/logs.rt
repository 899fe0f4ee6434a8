//! What sessions did, in order.

use sp_model::{Name, Sequence};

/// What a session did or was told. Editions, members, actions and joint observations stand by number.
#[derive(Drop)]
pub enum Entry {
    /// It was told of an edition.
    Told(u64),
    /// An answer on an edition: the greatest member's id and its action.
    Act {
        edition: u64,
        member: u64,
        action: u64,
    },
    /// A joint observation, which updated its belief.
    Observe(u64),
    /// A joint observation that its belief rules out: nothing changed.
    Unseen(u64),
    /// The last answer, on the last edition.
    Closing {
        edition: u64,
        member: u64,
        action: u64,
    },
}

pub type Entries = Sequence<Entry>;

/// The log of a session, with its name of 1 to 64 letters, digits, `_`, `-` and `.`.
#[derive(Drop)]
pub struct SessionLog {
    pub name: Name,
    pub entries: Entries,
}

/// The logs of all sessions, in the order of their opening.
pub type Transcript = Sequence<SessionLog>;
