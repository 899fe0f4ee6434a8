//! Logs that are taken one after another.

ghost use Rattle.std.specs.Prelude.{◌≡◌, [], ◌∷◌, MatchOption};

use sp_session::{SessionLog, Transcript};
use std::collections::VecDeque;
use std::marker::Model;

/// The logs of a desk that weren't taken yet, in order. Contracts see them as a list.
#[derive(Drop)]
pub(crate) struct Queue {
    logs: VecDeque<SessionLog>,
}

impl Model for Queue {
    ghost use Rattle.std.specs.Prelude.{List};
    ghost use Rattle.sp_session.specs.declared.logs.SessionLog.{SessionLog};

    ghost Value = { List SessionLog };

    ghost view = { λ q. q.logs.items };
}

impl Queue {
    /// All of these logs.
    pub fn of(logs: Transcript) -> Queue
        ensures { result ≡ logs }
    {
        Queue {
            logs: VecDeque::from_vec(logs.into_vec()),
        }
    }

    /// Takes the first log.
    pub fn next(&mut self) -> Option<SessionLog>
        ensures { MatchOption result (self.old ≡ []) (λ log. self.old ≡ log ∷ self.new) }
    {
        self.logs.pop_front()
    }
}
