//! What a book keeps, and how events change it.

ghost use Rattle.std.specs.Prelude.{◌≡◌, ◌+◌, ◌<◌, ◌≤◌, option_map, vec_len, vec_capacity, length};
ghost use Rattle.std.specs.Arc.{arc_value};

use sp_ledger::{ListedTask, lift, raise};
use sp_value::{Edition, Event, Member};
use std::alloc::Global;
use std::mem;
use std::sync::Arc;

/// The lists of a book. Lists of flags and values have one for each sampled belief, in the order of their numbers.
#[derive(Drop)]
pub(crate) struct Ledger {
    pub(crate) alloc: Global,
    pub(crate) task: ListedTask,
    pub(crate) events: Vec<Event>,
    pub(crate) editions: Vec<Arc<Edition>>,
    /// How many records there are.
    pub(crate) records: u64,
    /// What has entered since the last publication.
    pub(crate) grown: Vec<Member>,
    /// Where something has entered that is at least as good as the latest edition.
    pub(crate) improved: Vec<bool>,
    /// Which beliefs are taken by `next_work`.
    pub(crate) taken: Vec<bool>,
    /// The values of the latest edition, as sums of weights times ticks.
    pub(crate) latest_values: Vec<i128>,
    /// The values of the grown list, where it has a member.
    pub(crate) grown_values: Vec<i128>,
    /// Room for the worths of a vector.
    pub(crate) worths: Vec<i128>,
    pub(crate) stages_left: u64,
    pub(crate) done: bool,
}

impl Ledger {
    ghost use Rattle.sp_core.specs.Ledgers.{contents, with_member, contents_with_publication, entered_with};

    /// Takes a member into the grown list, whose worths are at hand.
    pub(crate) fn enter(&mut self, member: Member, next: Option<Arc<Edition>>)
        requires members { vec_len self.old.grown < vec_capacity self.old.grown }
        requires events { vec_len self.old.events + 2 ≤ vec_capacity self.old.events }
        requires editions { vec_len self.old.editions < vec_capacity self.old.editions }
        requires flags { length self.old.latest_values.items ≡ length self.old.improved.items }
        requires values { length self.old.grown_values.items ≡ length self.old.improved.items }
        requires worths { length self.old.worths.items ≡ length self.old.improved.items }
        ensures { contents self.new ≡ entered_with (contents self.old) member (option_map (λ e. arc_value e) next) }
    {
        self.grow(member);
        if let Some(edition) = next {
            self.publish(edition);
        }
    }

    fn grow(&mut self, member: Member)
        requires members { vec_len self.old.grown < vec_capacity self.old.grown }
        requires flags { length self.old.latest_values.items ≡ length self.old.improved.items }
        requires values { length self.old.grown_values.items ≡ length self.old.improved.items }
        requires worths { length self.old.worths.items ≡ length self.old.improved.items }
        ensures changed { contents self.new ≡ with_member (contents self.old) member }
        ensures events { vec_capacity self.new.events ≡ vec_capacity self.old.events }
        ensures editions { vec_capacity self.new.editions ≡ vec_capacity self.old.editions }
    {
        let first = self.grown.is_empty();
        raise(
            self.improved.as_mut_slice(),
            &self.worths,
            &self.latest_values,
        );
        lift(first, self.grown_values.as_mut_slice(), &self.worths);
        self.grown.push_reserved(member);
    }

    /// Publishes the edition, and ends the run where no stage is left then.
    fn publish(&mut self, edition: Arc<Edition>)
        requires events { vec_len self.old.events + 2 ≤ vec_capacity self.old.events }
        requires editions { vec_len self.old.editions < vec_capacity self.old.editions }
        ensures { contents self.new ≡ contents_with_publication (contents self.old) (arc_value edition) }
    {
        self.events.push_reserved(Event::Publish);
        self.editions.push_reserved(edition);
        self.grown.clear();
        self.improved.fill(false);
        self.taken.fill(false);
        mem::swap(&mut self.latest_values, &mut self.grown_values);
        self.stages_left = self.stages_left.saturating_sub(1);
        if self.stages_left == 0 {
            self.events.push_reserved(Event::End);
            self.done = true;
        }
    }
}
