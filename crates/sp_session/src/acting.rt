//! Acting sessions.

ghost use Rattle.std.specs.Prelude.{◌≡◌, ◌<◌, ◌≤◌, ◌↔◌, map, length, None, Err, IsNone, All, IfOk, OnOk, IfErr, OnErr, MatchResult};
ghost use Rattle.std.specs.Arc.{arc_value};
ghost use Rattle.sp_theory.specs.Points.{count_of};
ghost use Rattle.sp_model.specs.Problem.{sizes_of};
ghost use Rattle.sp_session.specs.declared.answers.ObserveError.TheVariants as errors;
ghost use Rattle.sp_session.specs.Logs.{entries_of, log_of};

use crate::answers::{Answer, ObserveError};
use crate::logs::{Entry, SessionLog};
use sp_belief::{NextError, initial, next};
use sp_dd::NoMemory;
use sp_model::{Name, Sequence, Weights};
use sp_value::{Edition, Task};
use std::alloc::Global;
use std::marker::Model;
use std::sync::Arc;

/// A session that acts on the editions of a run. Its belief is the initial one, updated by each observation that it took, with the
/// action of the answer before it. It keeps every edition that it answered on.
#[derive(Drop)]
pub struct Session {
    alloc: Global,
    name: Name,
    task: Arc<Task>,
    /// Its belief.
    weights: Weights,
    /// The greatest number of an edition that it answered on or was told of.
    newest: u64,
    /// The action of the last answer, where nothing was observed since.
    acted: Option<u64>,
    entries: Vec<Entry>,
    /// The edition of each answer.
    editions: Vec<Arc<Edition>>,
}

impl Model for Session {
    ghost use Rattle.sp_session.specs.Sessions.{SessionParts};

    ghost Value = { SessionParts };

    ghost use Rattle.sp_session.specs.Seats.{parts_in, IsSeated};

    ghost view = { parts_in };

    ghost invariant = { IsSeated };
}

impl Session {
    ghost use Rattle.sp_session.specs.Sessions.{SessionParts, IsSession, IsEntryOf, session_of, first_parts, closed_log, with_told};
    ghost use Rattle.sp_session.specs.Answering.{IsAnswerOf, IsAnswered, HasObserved, RefusesObservation};

    /// A session before any command. Later calls take their memory from `alloc`.
    pub fn begin(alloc: Global, name: &str, task: Arc<Task>) -> Result<Session, NoMemory>
        ensures { IfOk result (λ s. s ≡ first_parts name.now (arc_value task)) }
    {
        let name = Name::new(alloc, name.as_bytes())?;
        Session::named(alloc, name, task)
    }

    /// `begin` with the name as it is kept.
    pub fn named(alloc: Global, name: Name, task: Arc<Task>) -> Result<Session, NoMemory>
        ensures { IfOk result (λ s. s ≡ first_parts name (arc_value task)) }
    {
        let weights = initial(alloc, task.model())?;
        Ok(Session {
            alloc,
            name,
            task,
            weights,
            newest: 0,
            acted: None,
            entries: Vec::new(alloc),
            editions: Vec::new(alloc),
        })
    }

    /// Its name. Takes no memory.
    pub fn name(&self) -> &Name
        ensures { result.now ≡ self.now.name }
    {
        &self.name
    }

    /// What it acts in. Takes no memory.
    pub fn task(&self) -> &Arc<Task>
        ensures { arc_value result.now ≡ self.now.task }
    {
        &self.task
    }

    /// Its log so far. Takes no memory.
    pub fn entries(&self) -> &[Entry]
        ensures { entries_of result.now ≡ self.now.entries }
    {
        self.entries.as_slice()
    }

    /// The edition of each answer, in order. The session keeps what `IsSession` says. Takes no memory.
    pub fn editions(&self) -> &[Arc<Edition>]
        ensures value { map arc_value result.now ≡ self.now.editions }
        ensures known { IsSession self.now }
    {
        self.editions.as_slice()
    }

    /// The greatest number of an edition that it answered on or was told of, first 0. Takes no memory.
    pub fn newest(&self) -> u64
        ensures { result ≡ (session_of self.now).newest }
    {
        self.newest
    }

    /// Answers on an edition. Unchanged on want of memory.
    pub fn act(&mut self, edition: &Arc<Edition>) -> Result<Answer, NoMemory>
        requires task { (arc_value edition.now).task ≡ self.old.task }
        requires newest { (session_of self.old).newest ≤ (arc_value edition.now).number }
        ensures ok { IfOk result (λ answer. IsAnswered self.old (arc_value edition.now) answer self.new) }
        ensures err { OnErr result (self.new ≡ self.old) }
    {
        // what is known of each edition
        let _ = edition.members();
        let answer = self.answer_on(edition)?;
        let edition = Arc::try_clone(edition)?;
        self.entries.reserve(1)?;
        self.editions.reserve(1)?;
        self.entries.push_reserved(Entry::Act {
            edition: answer.edition,
            member: answer.member,
            action: answer.action,
        });
        self.editions.push_reserved(edition);
        self.newest = answer.edition;
        self.acted = Some(answer.action);
        Ok(answer)
    }

    /// The answer on an edition.
    fn answer_on(&self, edition: &Edition) -> Result<Answer, NoMemory>
        requires { edition.now.task ≡ self.now.task }
        ensures { IfOk result (IsAnswerOf self.now edition.now) }
    {
        let (place, value) = edition.greatest_place(self.alloc, &self.weights)?;
        let member = edition.members().at(place);
        Ok(Answer {
            edition: edition.number(),
            member: member.id,
            action: member.action,
            value,
        })
    }

    /// Takes the joint observation of that number, with the last observation variable fastest. After `Unseen` the log has it, and
    /// nothing else has changed; after the other errors nothing has.
    pub fn observe(&mut self, observation: u64) -> Result<(), ObserveError>
        requires { observation < count_of (sizes_of self.old.task.model.sights) }
        ensures ok { OnOk result (HasObserved self.old observation self.new) }
        ensures err { IfErr result (λ e. RefusesObservation self.old observation e self.new) }
        ensures no_action { (result ≡ Err errors.NoAction) ↔ IsNone (session_of self.old).acted }
    {
        let Some(action) = self.acted else {
            return Err(ObserveError::NoAction);
        };
        self.entries.reserve(1)?;
        match next(
            self.alloc,
            self.task.model(),
            &self.weights,
            action,
            observation,
        ) {
            Ok(weights) => {
                self.entries.push_reserved(Entry::Observe(observation));
                self.weights = weights;
                self.acted = None;
                Ok(())
            }
            Err(NextError::Unseen) => {
                self.entries.push_reserved(Entry::Unseen(observation));
                Err(ObserveError::Unseen)
            }
            Err(NextError::NoMemory) => Err(ObserveError::NoMemory),
        }
    }

    /// It is told the number of an edition. Unchanged on want of memory.
    pub fn told(&mut self, number: u64) -> Result<(), NoMemory>
        requires { (session_of self.old).newest ≤ number }
        ensures ok { OnOk result (self.new ≡ with_told self.old number) }
        ensures err { OnErr result (self.new ≡ self.old) }
    {
        self.entries.reserve(1)?;
        self.entries.push_reserved(Entry::Told(number));
        self.newest = number;
        Ok(())
    }

    /// Its log with the closing answer on the last edition; on want of memory the session, unchanged.
    pub fn finish(self, last: &Arc<Edition>) -> Result<SessionLog, (Session, NoMemory)>
        requires task { (arc_value last.now).task ≡ self.task }
        requires newest { (session_of self).newest ≤ (arc_value last.now).number }
        ensures value { MatchResult result (λ log. log_of log ≡ closed_log self (arc_value last.now)) (λ e. e.0 ≡ self) }
        ensures known { IfOk result (λ log. All (IsEntryOf self.task.model) (entries_of log.entries)) }
    {
        let mut session = self;
        let Ok(answer) = session.answer_on(last) else {
            return Err((session, NoMemory));
        };
        if session.entries.reserve(1).is_err() {
            return Err((session, NoMemory));
        }
        let Session {
            name,
            mut entries,
            ..
        } = session;
        entries.push_reserved(Entry::Closing {
            edition: answer.edition,
            member: answer.member,
            action: answer.action,
        });
        Ok(SessionLog {
            name,
            entries: Sequence::from_vec(entries),
        })
    }
}
