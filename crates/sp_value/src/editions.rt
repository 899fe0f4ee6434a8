//! Editions of value vectors.

ghost use Rattle.std.specs.Prelude.{◌≡◌, ◌<◌, ◌↔◌, IsTrue, IfOk, length};
ghost use Rattle.std.specs.Arc.{arc_value};
ghost use Rattle.sp_theory.specs.Values.{greatest_member, value};
ghost use Rattle.sp_model.specs.Problem.{problem, shape_of};
ghost use Rattle.sp_model.specs.Links.{weights_of};

use crate::same::same_members;
use crate::scores::is_better;
use crate::tasks::Task;
use sp_dd::NoMemory;
use sp_model::functions::dot;
use sp_model::{Func, Sequence, Weights};
use std::alloc::Global;
use std::marker::Model;
use std::sync::Arc;

/// A value vector in an edition, in ticks of 10^-9, with the number and the action of its record.
#[derive(Drop)]
pub struct Member {
    pub id: u64,
    pub action: u64,
    pub vector: Func,
}

pub type Members = Sequence<Member>;

impl Member {
    /// The same member once more.
    pub fn copied(&self, alloc: Global) -> Result<Member, NoMemory>
        ensures { IfOk result (λ x. x ≡ self.now) }
    {
        let vector = self.vector.copied(alloc)?;
        Ok(Member {
            id: self.id,
            action: self.action,
            vector,
        })
    }
}

/// A value function: the greatest of its members at each belief (Spaan and Vlassis 2005). Members stand in order of entry.
#[derive(Drop)]
pub struct Edition {
    number: u64,
    task: Arc<Task>,
    members: Members,
}

impl Model for Edition {
    ghost use Rattle.std.specs.Arc.{arc_value};
    ghost use Rattle.sp_value.specs.Editions.{EditionParts, IsEdition};

    ghost Value = { EditionParts };

    ghost view = { λ e. record { number = e.number; task = arc_value e.task; members = e.members } };

    ghost invariant = { λ e. IsEdition (record { number = e.number; task = arc_value e.task; members = e.members }) };
}

impl Edition {
    ghost use Rattle.sp_value.specs.Editions.{IsEdition, IsGreatestAt, members_in, member_sum};

    /// The edition of this number with these members. Takes no memory.
    pub fn new(number: u64, task: Arc<Task>, members: Members) -> Edition
        requires { IsEdition (record { number = number; task = arc_value task; members = members }) }
        ensures { result ≡ record { number = number; task = arc_value task; members = members } }
    {
        Edition {
            number,
            task,
            members,
        }
    }

    /// Its number. Takes no memory.
    pub fn number(&self) -> u64
        ensures { result ≡ self.now.number }
    {
        self.number
    }

    /// What it is an edition of. Takes no memory.
    pub fn task(&self) -> &Arc<Task>
        ensures { arc_value result.now ≡ self.now.task }
    {
        &self.task
    }

    /// Its members. The edition keeps what `IsEdition` says. Takes no memory.
    pub fn members(&self) -> &Members
        ensures value { result.now ≡ self.now.members }
        ensures known { IsEdition self.now }
    {
        &self.members
    }

    /// The id of the greatest member at the weights, of the least id at a tie, and its sum: that of weights times values, in ticks
    /// times weight.
    pub fn greatest(&self, alloc: Global, weights: &Weights) -> Result<(u64, i128), NoMemory>
        requires { weights.now.shape ≡ shape_of self.now.task.model }
        ensures { let m = problem self.now.task.model in let w = weights_of self.now.task.model weights.now in IfOk result (λ r. (r.0 ≡ (greatest_member m (members_in self.now) w).id) × (r.1 ≡ value m (members_in self.now) w)) }
    {
        let (place, sum) = self.greatest_place(alloc, weights)?;
        Ok((self.members.at(place).id, sum))
    }

    /// The place of the greatest member at the weights, of the least id at a tie, and its sum: that of weights times values, in
    /// ticks times weight.
    pub fn greatest_place(&self, alloc: Global, weights: &Weights) -> Result<(u64, i128), NoMemory>
        requires { weights.now.shape ≡ shape_of self.now.task.model }
        ensures { let m = problem self.now.task.model in let w = weights_of self.now.task.model weights.now in IfOk result (λ r. IsGreatestAt self.now w r.0 × (r.1 ≡ value m (members_in self.now) w)) }
    {
        let members = self.members();
        let mut place = 0;
        let mut most = self.sum(alloc, weights, 0)?;
        for k in 1..members.len() {
            let sum = self.sum(alloc, weights, k)?;
            if is_better(sum, members.at(k).id, most, members.at(place).id) {
                place = k;
                most = sum;
            }
        }
        Ok((place, most))
    }

    /// The sum of weights times values of the member at a place.
    fn sum(&self, alloc: Global, weights: &Weights, place: u64) -> Result<i128, NoMemory>
        requires place { place < length self.now.members }
        requires shape { weights.now.shape ≡ shape_of self.now.task.model }
        ensures { IfOk result (λ z. z ≡ member_sum self.now (weights_of self.now.task.model weights.now) place) }
    {
        let member = self.members().at(place);
        let sum = dot(alloc, weights.func(), &member.vector)?;
        Ok(sum)
    }

    /// Whether number, task and members agree. Takes no memory.
    pub fn same(&self, other: &Edition) -> bool
        ensures { IsTrue result ↔ (self.now ≡ other.now) }
    {
        self.number == other.number
            && self.task.same(&other.task)
            && same_members(self.members.as_slice(), other.members.as_slice())
    }
}
