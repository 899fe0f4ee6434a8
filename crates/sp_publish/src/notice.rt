//! Notices of the newest published edition.

ghost use Rattle.std.specs.Prelude.{◌≡◌, ◌+◌, length, IfOk, IfSome, MatchBool, Some};
ghost use Rattle.std.specs.Arc.{arc_value};
ghost use Rattle.sp_publish.specs.Published.{ListGoesOn, IsList, newest_in};
ghost use Rattle.sp_publish.specs.Snapshot.{IsNewestOf};

use crate::log::Front;
use left_right::Absorb;
use sp_dd::NoMemory;
use sp_value::Edition;
use std::alloc::AllocError;
use std::marker::Model;
use std::sync::Arc;

/// The newest edition of a list when this was made, and whether the list had ended. Contracts see what was known of the list.
#[derive(Drop)]
pub struct Notice {
    edition: Arc<Edition>,
    ended: bool,
    front: Front,
}

impl Model for Notice {
    ghost use Rattle.std.specs.Arc.{arc_value};
    ghost use Rattle.sp_publish.specs.Published.{PublishedList};
    ghost use Rattle.sp_publish.specs.Snapshot.{IsNewestOf};

    ghost Value = { PublishedList };

    ghost view = { λ n. n.front };

    ghost invariant = { λ n. IsNewestOf n.front (arc_value n.edition) n.ended };
}

impl Notice {
    pub(crate) fn new(edition: Arc<Edition>, ended: bool, front: Front) -> Notice
        requires { IsNewestOf front (arc_value edition) ended }
        ensures { result ≡ front }
    {
        Notice {
            edition,
            ended,
            front,
        }
    }

    /// The number of the newest edition. Takes no memory.
    pub fn number(&self) -> u64
        ensures newest { IfSome (newest_in self.now) (λ e. e.number ≡ result) }
        ensures count { length self.now.editions ≡ result + 1 }
    {
        self.edition.number()
    }

    /// The newest edition. What is known of a list keeps what `IsList` says. Takes no memory.
    pub fn edition(&self) -> &Arc<Edition>
        ensures newest { newest_in self.now ≡ Some (arc_value result.now) }
        ensures known { IsList self.now }
    {
        &self.edition
    }

    /// Whether the list had ended. Takes no memory.
    pub fn is_end(&self) -> bool
        ensures { result ≡ self.now.ended }
    {
        self.ended
    }

    /// The same notice once more.
    pub fn copied(&self) -> Result<Notice, NoMemory>
        ensures { IfOk result (λ n. n ≡ self.now) }
    {
        let edition = Arc::try_clone(&self.edition)?;
        Ok(Notice {
            edition,
            ended: self.ended,
            front: self.front.again(),
        })
    }

    /// Whether the other tells more of the same list. Takes no memory.
    pub fn is_before(&self, other: &Notice) -> bool
        requires { other.now.list ≡ self.now.list }
        ensures { MatchBool result (ListGoesOn self.now other.now) (ListGoesOn other.now self.now) }
    {
        self.front.beside(&other.front);
        let (mine, theirs) = (self.edition.number(), other.edition.number());
        mine < theirs || mine == theirs && !self.ended && other.ended
    }

    /// A copy of the other, where it tells more of the same list.
    pub(crate) fn later(&self, other: &Notice) -> Result<Option<Notice>, NoMemory>
        requires { other.now.list ≡ self.now.list }
        ensures { IfOk result (λ o. IfSome o (λ n. ListGoesOn self.now n)) }
    {
        if !self.is_before(other) {
            return Ok(None);
        }
        let later = other.copied()?;
        Ok(Some(later))
    }
}

impl Absorb<Notice> for Notice {
    type State = Front;

    ghost state = { λ n. n };

    ghost applied = { λ old new. new };

    fn absorb_first(&mut self, operation: &Notice, _other: &Notice) -> Result<(), AllocError> {
        match operation.copied() {
            Ok(notice) => {
                *self = notice;
                Ok(())
            }
            Err(NoMemory) => Err(AllocError),
        }
    }

    fn absorb_second(&mut self, operation: Notice, _other: &Notice) -> Result<(), Notice> {
        *self = operation;
        Ok(())
    }
}
