//! The one end that publishes.

ghost use Rattle.std.specs.Prelude.{◌≡◌, length, false, IfOk, IsSome, MatchOption, MatchResult, OnErr, OnOk, Some};
ghost use Rattle.std.specs.Arc.{arc_value};
ghost use Rattle.sp_publish.specs.Published.{ListGoesOn, IsOfTask, with_edition, with_end};

use crate::draft::Draft;
use crate::notice::Notice;
use crate::snapshot::{Sees, SnapWriter};
use sp_dd::NoMemory;
use sp_value::Edition;
use std::alloc::AllocError;
use std::marker::Model;
use std::sync::{Arc, Wait};

/// Publishes the editions of a list. Contracts see what is published. It isn't dropped: `close` ends it.
pub struct Publisher {
    draft: Draft,
    writer: Option<SnapWriter>,
}

impl Model for Publisher {
    ghost use Rattle.std.specs.Prelude.{◌≡◌, MatchOption};
    ghost use Rattle.sp_publish.specs.Published.{PublishedList};

    ghost Value = { PublishedList };

    ghost view = { λ p. p.draft.published };

    ghost invariant = { λ p. MatchOption p.writer ⊥ (λ w. w.desk.shown.value ≡ p.draft.published) };
}

impl Publisher {
    pub(crate) fn over(draft: Draft, writer: SnapWriter) -> Publisher
        requires { writer.desk.shown.value ≡ draft.published }
        ensures { result ≡ draft.published }
    {
        Publisher {
            draft,
            writer: Some(writer),
        }
    }

    /// Publishes the next edition. At want of memory nothing is published; the edition can be offered again, and until it is, any
    /// other call that publishes finds no memory either.
    pub fn publish<R: Wait>(&mut self, rt: &R, next: Arc<Edition>) -> Result<Notice, NoMemory>
        requires open { self.old.ended ≡ false }
        requires number { (arc_value next).number ≡ length self.old.editions }
        requires task { IsOfTask self.old (arc_value next).task }
        ensures published { OnOk result (self.new ≡ with_edition self.old (arc_value next)) }
        ensures told { IfOk result (λ n. n ≡ self.new) }
        ensures same { OnErr result (self.new ≡ self.old) }
    {
        self.draft.add(next)?;
        show(rt, &mut self.draft, &mut self.writer)
    }

    /// Publishes the end mark, as `publish` does an edition.
    pub fn end<R: Wait>(&mut self, rt: &R) -> Result<Notice, NoMemory>
        requires { self.old.ended ≡ false }
        ensures published { OnOk result (self.new ≡ with_end self.old) }
        ensures told { IfOk result (λ n. n ≡ self.new) }
        ensures same { OnErr result (self.new ≡ self.old) }
    {
        self.draft.add_end()?;
        show(rt, &mut self.draft, &mut self.writer)
    }

    /// The notice of what is published. Takes no memory.
    pub fn newest(&self) -> &Notice
        ensures { result.now ≡ self.now }
    {
        self.draft.published()
    }

    /// A notice of what is published.
    pub fn tell(&self) -> Result<Notice, NoMemory>
        ensures { IfOk result (λ n. n ≡ self.now) }
    {
        self.newest().copied()
    }

    /// Ends its work, ended or not. Viewers then give what they last saw or learned.
    pub fn close<R: Wait>(self, rt: &R) {
        let Publisher {
            draft: _draft,
            writer,
        } = self;
        if let Some(writer) = writer {
            writer.take(rt);
        }
    }
}

/// Publishes what waits.
fn show<R: Wait>(
    rt: &R,
    draft: &mut Draft,
    home: &mut Option<SnapWriter>,
) -> Result<Notice, NoMemory>
    requires waiting { IsSome draft.old.waiting }
    requires shown { MatchOption home.old ⊥ (λ w. w.desk.shown.value ≡ draft.old.published) }
    ensures shown { MatchOption home.new ⊥ (λ w. w.desk.shown.value ≡ draft.new.published) }
    ensures ok { IfOk result (λ n. (draft.old.waiting ≡ Some n) × (draft.new.published ≡ n)) }
    ensures err { OnErr result (draft.new.published ≡ draft.old.published) }
{
    let told = draft.next()?;
    let longer = draft.next()?;
    let Some(writer) = home.take() else {
        unreachable!()
    };
    let (writer, answer) = show_longer(rt, writer, longer);
    if let Some(none) = home.replace(writer) {
        none.take(rt);
    }
    answer?;
    draft.settle();
    Ok(told)
}

/// Shows a longer list to the viewers.
fn show_longer<R: Wait>(
    rt: &R,
    writer: SnapWriter,
    longer: Notice,
) -> (SnapWriter, Result<(), AllocError>)
    requires { ListGoesOn writer.desk.shown.value longer }
    ensures { MatchResult result.1 (λ _. result.0.desk.shown.value ≡ longer) (λ _. result.0.desk.shown.value ≡ writer.desk.shown.value) }
{
    let mut writer = writer;
    match writer.append(longer) {
        Ok(()) => writer.publish_as::<Sees, R>(rt),
        Err(_longer) => (writer, Err(AllocError)),
    }
}
