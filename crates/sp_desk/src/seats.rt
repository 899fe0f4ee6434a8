//! Sessions by name.

ghost use Rattle.std.specs.Prelude.{◌≡◌, ◌<◌, ◌≤◌, true, false, max, IfErr, IfOk, MatchOption, OnErr, OnOk};
ghost use Rattle.std.specs.Arc.{arc_value};
ghost use Rattle.sp_theory.specs.Points.{count_of};
ghost use Rattle.sp_model.specs.Problem.{sizes_of};
ghost use Rattle.sp_session.specs.Sessions.{IsSession, first_parts, session_of, with_told};
ghost use Rattle.sp_session.specs.Answering.{HasObserved, IsAnswered, RefusesObservation};

use sp_dd::NoMemory;
use sp_model::Name;
use sp_session::{Answer, ObserveError, Session};
use sp_value::{Edition, Task};
use std::alloc::Global;
use std::sync::Arc;

/// A session, and whether it takes commands.
#[derive(Drop)]
pub struct Seat {
    pub session: Session,
    pub is_open: bool,
}

ghost use Rattle.sp_desk.specs.Desks.{HasOpenAt, is_open_as, is_open_in};

impl Seat {
    /// A session of that name begins, and takes commands.
    pub(crate) fn named(alloc: Global, name: &[u8], task: &Arc<Task>) -> Result<Seat, NoMemory>
        ensures value { IfOk result (λ s. s ≡ record { session = first_parts name.now (arc_value task.now); is_open = true }) }
        ensures known { IfOk result (λ s. IsSession s.session) }
    {
        let name = Name::new(alloc, name)?;
        let task = Arc::try_clone(task)?;
        let session = Session::named(alloc, name, task)?;
        let _ = session.editions();
        Ok(Seat {
            session,
            is_open: true,
        })
    }

    /// Whether it is the open session of that name.
    fn is_open_as(&self, name: &[u8]) -> bool
        ensures { result ≡ is_open_as name.now self.now }
    {
        self.is_open && name == self.session.name().bytes()
    }

    /// It answers on an edition. Unchanged on want of memory.
    pub(crate) fn answer(&mut self, edition: &Arc<Edition>) -> Result<Answer, NoMemory>
        requires task { (arc_value edition.now).task ≡ self.old.session.task }
        requires newest { (session_of self.old.session).newest ≤ (arc_value edition.now).number }
        ensures ok { IfOk result (λ answer. IsAnswered self.old.session (arc_value edition.now) answer self.new.session) }
        ensures err { OnErr result (self.new ≡ self.old) }
        ensures seat { self.new ≡ record self.old { session = self.new.session } }
        ensures known { IsSession self.new.session }
    {
        let answer = self.session.act(edition);
        let _ = self.session.editions();
        answer
    }

    /// It takes an observation.
    pub(crate) fn observe(&mut self, observation: u64) -> Result<(), ObserveError>
        requires { observation < count_of (sizes_of self.old.session.task.model.sights) }
        ensures ok { OnOk result (HasObserved self.old.session observation self.new.session) }
        ensures err { IfErr result (λ e. RefusesObservation self.old.session observation e self.new.session) }
        ensures seat { self.new ≡ record self.old { session = self.new.session } }
        ensures known { IsSession self.new.session }
    {
        let observed = self.session.observe(observation);
        let _ = self.session.editions();
        observed
    }

    /// It is told that number, or the newest which it saw where that is greater; it is the answer. Unchanged on want of memory.
    pub(crate) fn tell(&mut self, number: u64) -> Result<u64, NoMemory>
        ensures which { IfOk result (λ told. told ≡ max (session_of self.old.session).newest number) }
        ensures ok { IfOk result (λ told. self.new.session ≡ with_told self.old.session told) }
        ensures err { OnErr result (self.new ≡ self.old) }
        ensures seat { self.new ≡ record self.old { session = self.new.session } }
        ensures known { IsSession self.new.session }
    {
        let number = self.session.newest().max(number);
        let told = self.session.told(number);
        let _ = self.session.editions();
        told?;
        Ok(number)
    }
}

/// The place of the open session of that name.
pub(crate) fn place_of(seats: &[Seat], name: &[u8]) -> Option<usize>
    ensures { MatchOption result (is_open_in name.now seats.now ≡ false) (HasOpenAt name.now seats.now) }
{
    for place in 0..seats.len() {
        if seats[place].is_open_as(name) {
            return Some(place);
        }
    }
    None
}
