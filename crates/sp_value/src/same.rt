//! Whether two parts of tasks or of editions are the same.

ghost use Rattle.std.specs.Prelude.{◌≡◌, ◌<◌, ◌↔◌, ℕ, IsTrue, length, slice_index_or};
ghost use Rattle.sp_value.specs.Tasks.{no_sample};
ghost use Rattle.sp_value.specs.Editions.{no_member};

use crate::editions::Member;
use crate::tasks::{Explore, Options};
use sp_model::{Sample, Samples};

pub(crate) fn same_options(options: &Options, other: &Options) -> bool
    ensures { IsTrue result ↔ (options.now ≡ other.now) }
{
    options.beliefs == other.beliefs
        && options.depth == other.depth
        && options.stages == other.stages
        && options.seed == other.seed
        && options.prune == other.prune
        && same_explore(options.explore, other.explore)
}

fn same_explore(explore: Explore, other: Explore) -> bool
    ensures { IsTrue result ↔ (explore ≡ other) }
{
    match (explore, other) {
        (Explore::Uniform, Explore::Uniform) => true,
        (Explore::Sweep, Explore::Sweep) => true,
        _ => false,
    }
}

pub(crate) fn same_samples(samples: &Samples, other: &Samples) -> bool
    requires { (k : ℕ) → k < length samples.now.list → k < length other.now.list → (slice_index_or samples.now.list k no_sample).weights.shape ≡ (slice_index_or other.now.list k no_sample).weights.shape }
    ensures { IsTrue result ↔ (samples.now ≡ other.now) }
{
    if samples.depth != other.depth {
        return false;
    }
    if samples.list.len() != other.list.len() {
        return false;
    }
    for k in 0..samples.list.len() {
        if !same_sample(samples.list.at(k), other.list.at(k)) {
            return false;
        }
    }
    true
}

fn same_sample(sample: &Sample, other: &Sample) -> bool
    requires { sample.now.weights.shape ≡ other.now.weights.shape }
    ensures { IsTrue result ↔ (sample.now ≡ other.now) }
{
    sample.action == other.action
        && sample.observation == other.observation
        && sample.weights.func().same(other.weights.func())
}

pub(crate) fn same_members(members: &[Member], other: &[Member]) -> bool
    requires { (k : ℕ) → k < length members.now → k < length other.now → (slice_index_or members.now k no_member).vector.shape ≡ (slice_index_or other.now k no_member).vector.shape }
    ensures { IsTrue result ↔ (members.now ≡ other.now) }
{
    if members.len() != other.len() {
        return false;
    }
    for k in 0..members.len() {
        if !same_member(&members[k], &other[k]) {
            return false;
        }
    }
    true
}

fn same_member(member: &Member, other: &Member) -> bool
    requires { member.now.vector.shape ≡ other.now.vector.shape }
    ensures { IsTrue result ↔ (member.now ≡ other.now) }
{
    member.id == other.id && member.action == other.action && member.vector.same(&other.vector)
}
