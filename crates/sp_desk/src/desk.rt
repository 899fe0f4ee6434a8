//! A desk of acting sessions.

ghost use Rattle.std.specs.Prelude.{◌≡◌, ◌+◌, ◌<◌, ◌≢◌, false, true, length, All, IfErr, IfOk, MatchOption, OnErr, OnOk, Some};
ghost use Rattle.std.specs.Arc.{arc_value};
ghost use Rattle.sp_theory.specs.Points.{count_of};
ghost use Rattle.sp_model.specs.Problem.{sizes_of};
ghost use Rattle.sp_publish.specs.Published.{ListGoesOn, IsList, IsOfTask, newest_in};
ghost use Rattle.sp_session.specs.Logs.{logs_of};
ghost use Rattle.sp_serving.specs.Serving.{HasEntriesOf};

use crate::closing::close_all;
use crate::errors::{AskError, DeskError, NotOpen};
use crate::seats::{Seat, place_of};
use sp_dd::NoMemory;
use sp_publish::{Notice, Viewer};
use sp_session::{Answer, ObserveError, Transcript};
use sp_value::{Edition, Task};
use std::alloc::Global;
use std::marker::Model;
use std::sync::Arc;

/// Sessions by name, which act on the newest edition of a published list. No call waits.
#[derive(Drop)]
pub struct Desk {
    alloc: Global,
    viewer: Viewer,
    task: Arc<Task>,
    seats: Vec<Seat>,
}

impl Model for Desk {
    ghost use Rattle.sp_desk.specs.Desks.{DeskParts};

    ghost Value = { DeskParts };

    ghost use Rattle.sp_desk.specs.Kept.{desk_in, IsKeptDesk};

    ghost view = { desk_in };

    ghost invariant = { IsKeptDesk };
}

impl Desk {
    ghost use Rattle.sp_desk.specs.Desks.{DeskParts, HasOpenAt, IsDesk, first_desk, is_open_in, names_in, with_session};
    ghost use Rattle.sp_desk.specs.Asked.{AsksInVain, HasAnswered, HasClosed, HasSynced, HasTaken, KnowsMore, RefusesAt};
    ghost use Rattle.sp_desk.specs.Ended.{AreClosedOn, AreLegalOver};
    ghost use Rattle.sp_desk.specs.Places.{AnswersAt, ObservesAt, RefusesPlace, TellsAt};

    /// A desk with no session. Later calls take their memory from `alloc`.
    pub fn begin(alloc: Global, viewer: Viewer, task: Arc<Task>) -> Desk
        requires { IsOfTask viewer (arc_value task) }
        ensures { result ≡ first_desk (arc_value task) viewer }
    {
        keeps_list(&viewer);
        Desk {
            alloc,
            viewer,
            task,
            seats: Vec::new(alloc),
        }
    }

    /// What its sessions act in. The desk keeps what `IsDesk` says. Takes no memory.
    pub fn task(&self) -> &Arc<Task>
        ensures value { arc_value result.now ≡ self.now.task }
        ensures known { IsDesk self.now }
    {
        &self.task
    }

    /// A session of that name begins. The desk takes it behind those that entered before. Unchanged on want of memory.
    pub fn enter(&mut self, name: &str) -> Result<(), NoMemory>
        requires { All (λ other. other ≢ name.now) (names_in self.old.seats) }
        ensures ok { OnOk result (self.new ≡ with_session self.old name.now) }
        ensures err { OnErr result (self.new ≡ self.old) }
    {
        self.enter_named(name.as_bytes())
    }

    pub(crate) fn enter_named(&mut self, name: &[u8]) -> Result<(), NoMemory>
        requires { All (λ other. other ≢ name.now) (names_in self.old.seats) }
        ensures ok { OnOk result (self.new ≡ with_session self.old name.now) }
        ensures err { OnErr result (self.new ≡ self.old) }
    {
        let seat = Seat::named(self.alloc, name, &self.task)?;
        self.seats.reserve(1)?;
        self.seats.push_reserved(seat);
        Ok(())
    }

    /// The answer of a session on the newest edition: at least the notice's, and at least each that the session saw. At want of
    /// memory every session is unchanged, and the desk may know more of the list.
    pub fn ask(&mut self, name: &str, told: &Notice) -> Result<Answer, AskError>
        requires { told.now.list ≡ self.old.known.list }
        ensures ok { IfOk result (λ answer. HasAnswered self.old name.now told.now answer self.new) }
        ensures err { IfErr result (λ e. AsksInVain self.old name.now e self.new) }
    {
        self.ask_named(name.as_bytes(), told)
    }

    pub(crate) fn ask_named(&mut self, name: &[u8], told: &Notice) -> Result<Answer, AskError>
        requires { told.now.list ≡ self.old.known.list }
        ensures ok { IfOk result (λ answer. HasAnswered self.old name.now told.now answer self.new) }
        ensures err { IfErr result (λ e. AsksInVain self.old name.now e self.new) }
    {
        let Some(place) = self.place_of(name) else {
            return Err(AskError::NotOpen);
        };
        self.hear(told)?;
        let newest = self.look()?;
        let answer = self.answer_at(place, &newest)?;
        Ok(answer)
    }

    /// A session takes an observation, with the action of its last answer. An observation that its belief rules out is noted in its
    /// log, and changes nothing else.
    pub fn observe(&mut self, name: &str, observation: u64) -> Result<(), DeskError>
        requires { observation < count_of (sizes_of self.old.task.model.sights) }
        ensures ok { OnOk result (HasTaken self.old name.now observation self.new) }
        ensures err { IfErr result (λ e. RefusesAt self.old name.now observation e self.new) }
    {
        self.observe_named(name.as_bytes(), observation)
    }

    pub(crate) fn observe_named(&mut self, name: &[u8], observation: u64) -> Result<(), DeskError>
        requires { observation < count_of (sizes_of self.old.task.model.sights) }
        ensures ok { OnOk result (HasTaken self.old name.now observation self.new) }
        ensures err { IfErr result (λ e. RefusesAt self.old name.now observation e self.new) }
    {
        let Some(place) = self.place_of(name) else {
            return Err(DeskError::NotOpen);
        };
        match self.observe_at(place, observation) {
            Ok(()) => Ok(()),
            Err(ObserveError::NoAction) => Err(DeskError::NoAction),
            Err(ObserveError::Unseen) => Err(DeskError::Unseen),
            Err(ObserveError::NoMemory) => Err(DeskError::NoMemory),
        }
    }

    /// Tells a session the number of the notice's edition, or that of the newest which it saw where that is greater; it is the
    /// answer. At want of memory every session is unchanged, and the desk may know more of the list.
    pub fn sync(&mut self, name: &str, told: &Notice) -> Result<u64, AskError>
        requires { told.now.list ≡ self.old.known.list }
        ensures ok { IfOk result (λ number. HasSynced self.old name.now told.now number self.new) }
        ensures err { IfErr result (λ e. AsksInVain self.old name.now e self.new) }
    {
        self.sync_named(name.as_bytes(), told)
    }

    pub(crate) fn sync_named(&mut self, name: &[u8], told: &Notice) -> Result<u64, AskError>
        requires { told.now.list ≡ self.old.known.list }
        ensures ok { IfOk result (λ number. HasSynced self.old name.now told.now number self.new) }
        ensures err { IfErr result (λ e. AsksInVain self.old name.now e self.new) }
    {
        let Some(place) = self.place_of(name) else {
            return Err(AskError::NotOpen);
        };
        self.hear(told)?;
        let number = self.tell_at(place, told.number())?;
        Ok(number)
    }

    /// A session takes no further command. Takes no memory.
    pub fn close(&mut self, name: &str) -> Result<(), NotOpen>
        ensures ok { OnOk result (HasClosed self.old name.now self.new) }
        ensures err { OnErr result ((is_open_in name.now self.old.seats ≡ false) × (self.new ≡ self.old)) }
    {
        self.close_named(name.as_bytes())
    }

    pub(crate) fn close_named(&mut self, name: &[u8]) -> Result<(), NotOpen>
        ensures ok { OnOk result (HasClosed self.old name.now self.new) }
        ensures err { OnErr result ((is_open_in name.now self.old.seats ≡ false) × (self.new ≡ self.old)) }
    {
        let Some(place) = self.place_of(name) else {
            return Err(NotOpen);
        };
        self.seats[place].is_open = false;
        Ok(())
    }

    /// The logs of all sessions with their closing answers on the last edition, in order of entering. They are legal for each run
    /// whose editions are those of the ended list.
    pub fn closing(self, end: &Notice) -> Result<Transcript, NoMemory>
        requires list { end.now.list ≡ self.known.list }
        requires ended { end.now.ended ≡ true }
        ensures goes_on { OnOk result (ListGoesOn self.known end.now) }
        ensures logs { IfOk result (λ logs. AreClosedOn self.seats end.now (logs_of logs)) }
        ensures legal { IfOk result (λ logs. AreLegalOver self.task end.now (logs_of logs)) }
        ensures known { IfOk result (λ logs. All (HasEntriesOf self.task.model) (logs_of logs)) }
    {
        let mut desk = self;
        desk.hear(end)?;
        let last = desk.look()?;
        let Desk { alloc, seats, .. } = desk;
        close_all(alloc, seats, &last)
    }

    /// The place of the open session of that name.
    fn place_of(&self, name: &[u8]) -> Option<usize>
        ensures { MatchOption result (is_open_in name.now self.now.seats ≡ false) (HasOpenAt name.now self.now.seats) }
    {
        place_of(self.seats.as_slice(), name)
    }

    /// Learns a notice.
    fn hear(&mut self, told: &Notice) -> Result<(), NoMemory>
        requires { told.now.list ≡ self.old.known.list }
        ensures more { KnowsMore self.old self.new }
        ensures heard { OnOk result (ListGoesOn told.now self.new.known) }
    {
        let heard = self.viewer.learn(told);
        keeps_list(&self.viewer);
        heard
    }

    /// The newest edition that it knows of.
    fn look(&mut self) -> Result<Arc<Edition>, NoMemory>
        ensures more { KnowsMore self.old self.new }
        ensures newest { IfOk result (λ e. newest_in self.new.known ≡ Some (arc_value e)) }
        ensures number { IfOk result (λ e. (arc_value e).number + 1 ≡ length self.new.known.editions) }
    {
        let newest = self.viewer.latest();
        keeps_list(&self.viewer);
        newest
    }

    /// The session at a place answers on the newest edition that the desk knows of.
    fn answer_at(&mut self, place: usize, newest: &Arc<Edition>) -> Result<Answer, NoMemory>
        requires place { place < length self.old.seats }
        requires newest { newest_in self.old.known ≡ Some (arc_value newest.now) }
        ensures ok { IfOk result (λ answer. AnswersAt self.old place (arc_value newest.now) answer self.new) }
        ensures err { OnErr result (self.new ≡ self.old) }
    {
        let answer = self.seats[place].answer(newest)?;
        Ok(answer)
    }

    /// The session at a place takes an observation.
    fn observe_at(&mut self, place: usize, observation: u64) -> Result<(), ObserveError>
        requires place { place < length self.old.seats }
        requires observation { observation < count_of (sizes_of self.old.task.model.sights) }
        ensures ok { OnOk result (ObservesAt self.old place observation self.new) }
        ensures err { IfErr result (λ e. RefusesPlace self.old place observation e self.new) }
    {
        self.seats[place].observe(observation)
    }

    /// The session at a place is told the number of an edition that the desk knows of, or the newest that it saw.
    fn tell_at(&mut self, place: usize, number: u64) -> Result<u64, NoMemory>
        requires place { place < length self.old.seats }
        requires number { number < length self.old.known.editions }
        ensures ok { IfOk result (λ told. TellsAt self.old place number told self.new) }
        ensures err { OnErr result (self.new ≡ self.old) }
    {
        let told = self.seats[place].tell(number)?;
        Ok(told)
    }
}

/// Does nothing: what is known of each list keeps `IsList`.
fn keeps_list(viewer: &Viewer)
    ensures { IsList viewer.now }
{
    let _ = viewer.known().edition();
}
