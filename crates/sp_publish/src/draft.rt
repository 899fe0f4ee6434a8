//! A published list with the item that comes next.

ghost use Rattle.std.specs.Prelude.{◌≡◌, length, false, IfOk, IsSome, None, OnOk, Some, unwrap_or};
ghost use Rattle.std.specs.Arc.{arc_value};
ghost use Rattle.sp_publish.specs.Published.{ListGoesOn, IsOfTask, with_edition, with_end};

use crate::log::{Add, EndMark, Log};
use crate::notice::Notice;
use sp_dd::NoMemory;
use sp_value::Edition;
use std::marker::Model;
use std::sync::Arc;

/// The list as it is published, and the item that its log has beyond that, which waits to be published. An item that found no
/// memory to be published waits until it is offered again, since a log never loses an entry.
#[derive(Drop)]
pub struct Draft {
    log: Log,
    published: Notice,
    waiting: Option<Notice>,
}

impl Model for Draft {
    ghost use Rattle.std.specs.Prelude.{◌≡◌, MatchOption};
    ghost use Rattle.sp_publish.specs.Snapshot.{Drafted, HasOneMore};

    ghost Value = { Drafted };

    ghost view = { λ d. record { published = d.published; waiting = d.waiting } };

    ghost invariant = { λ d. MatchOption d.waiting (d.log ≡ d.published) (λ w. (d.log ≡ w) × HasOneMore d.published w) };
}

impl Draft {
    pub fn new(log: Log, published: Notice) -> Draft
        requires { published ≡ log }
        ensures { result ≡ record { published = published; waiting = None } }
    {
        Draft {
            log,
            published,
            waiting: None,
        }
    }

    /// The notice of the published list.
    pub fn published(&self) -> &Notice
        ensures { result.now ≡ self.now.published }
    {
        &self.published
    }

    /// The edition waits to be published. Where another item waits already, that is want of memory.
    pub fn add(&mut self, next: Arc<Edition>) -> Result<(), NoMemory>
        requires open { self.old.published.ended ≡ false }
        requires number { (arc_value next).number ≡ length self.old.published.editions }
        requires task { IsOfTask self.old.published (arc_value next).task }
        ensures published { self.new.published ≡ self.old.published }
        ensures waiting { OnOk result (self.new.waiting ≡ Some (with_edition self.old.published (arc_value next))) }
    {
        if let Some(waiting) = &self.waiting {
            return if !waiting.is_end() && waiting.edition().same(&next) {
                Ok(())
            } else {
                Err(NoMemory)
            };
        }
        self.log.add::<Arc<Edition>, Add>(&next)?;
        self.waiting = Some(Notice::new(next, false, self.log.front().again()));
        Ok(())
    }

    /// The end mark waits to be published. Where an edition waits already, that is want of memory.
    pub fn add_end(&mut self) -> Result<(), NoMemory>
        requires { self.old.published.ended ≡ false }
        ensures published { self.new.published ≡ self.old.published }
        ensures waiting { OnOk result (self.new.waiting ≡ Some (with_end self.old.published)) }
    {
        if let Some(waiting) = &self.waiting {
            return if waiting.is_end() {
                Ok(())
            } else {
                Err(NoMemory)
            };
        }
        let newest = Arc::try_clone(self.published.edition())?;
        self.log.add::<EndMark, Add>(&EndMark)?;
        self.waiting = Some(Notice::new(newest, true, self.log.front().again()));
        Ok(())
    }

    /// A notice of the list with the item that waits.
    pub fn next(&self) -> Result<Notice, NoMemory>
        requires { IsSome self.now.waiting }
        ensures waiting { IfOk result (λ n. self.now.waiting ≡ Some n) }
        ensures next { IfOk result (λ n. ListGoesOn self.now.published n) }
    {
        let Some(waiting) = &self.waiting else {
            unreachable!()
        };
        waiting.copied()
    }

    /// What waited is published.
    pub fn settle(&mut self)
        ensures { self.new ≡ record { published = unwrap_or self.old.waiting self.old.published; waiting = None } }
    {
        if let Some(waiting) = self.waiting.take() {
            self.published = waiting;
        }
    }
}
