//! What a settle will do.

use sp_value::{Edition, Member};
use std::sync::Arc;

/// What a settle will do, with all the memory that it takes: where a member enters, the edition that is due then.
#[derive(Drop)]
pub(crate) enum Plan {
    /// Only the record and the event.
    RecordOnly,
    /// The new member enters.
    EnterNew(Option<Arc<Edition>>),
    /// This member of the latest edition enters.
    EnterOld(Member, Option<Arc<Edition>>),
}
