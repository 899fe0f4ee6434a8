//! The sampled beliefs of a model.

ghost use Rattle.std.specs.Prelude.{◌≡◌, ℕ, ◌+◌, ◌-◌, ◌*◌, ◌%◌, ◌<◌, ◌≤◌, ◌++◌, [], ◌∷◌, List, length, IfOk, OnOk, OnErr};
ghost use Rattle.sp_choose.specs.Machines.{Machine, answer_of, after_answer};
ghost use Rattle.sp_model.specs.declared.beliefs.Sample.{Sample};
ghost use Rattle.sp_sampler.specs.Words.{first_words, left_after, stream_of_seed, word_at};
ghost use Rattle.sp_sampler.specs.Sampled.{AreSampled, StandAfter, parent_number};

use crate::draws::drawn;
use crate::tables::no_tables;
use rand_core::{Rng, SeedableRng};
use rand_pcg::Lcg128Xsl64;
use sp_belief::initial;
use sp_choose::Chooser;
use sp_dd::NoMemory;
use sp_model::{Model, Sample, SampleList, Samples};
use std::alloc::Global;

/// Sampled beliefs of a model, by the words of the PCG generator of a seed (O'Neill 2014).
///
/// Belief 0 is the initial one, with action 0 and joint observation 0. Belief k is next after belief k - 1, or after belief 0
/// where `depth` divides k - 1. The chooser gives the action for a first word. A second word draws the joint observation: the
/// word is taken modulo the sum, over all of them in order, of the totals of the next weights before scaling, and the first
/// one is drawn at which the running sum exceeds it.
pub fn sample(
    alloc: Global,
    model: &Model,
    count: u64,
    depth: u64,
    seed: u64,
    chooser: Box<dyn Chooser + Send>,
) -> Result<Samples, NoMemory>
    requires some { 0 < count }
    requires few { count ≤ 4096 }
    requires deep { 0 < depth }
    requires not_deeper { depth ≤ 4096 }
    ensures depth { IfOk result (λ s. s.depth ≡ depth) }
    ensures samples { IfOk result (λ s. AreSampled model.now (machine chooser) depth (first_words (2 * count) (stream_of_seed seed)) count s.list) }
{
    let mut words = Lcg128Xsl64::seed_from_u64(seed);
    let mut chooser = chooser;
    sample_with(alloc, model, count, depth, &mut words, &mut *chooser)
}

/// Sampled beliefs of a model, by the words of any generator, as `sample` has them. On want of memory the generator and the
/// chooser stand after some belief.
pub fn sample_with<G: Rng>(
    alloc: Global,
    model: &Model,
    count: u64,
    depth: u64,
    words: &mut G,
    chooser: &mut dyn Chooser,
) -> Result<Samples, NoMemory>
    requires some { 0 < count }
    requires few { count ≤ 4096 }
    requires deep { 0 < depth }
    requires not_deeper { depth ≤ 4096 }
    ensures depth { IfOk result (λ s. s.depth ≡ depth) }
    ensures samples { IfOk result (λ s. AreSampled model.now (machine chooser.old) depth (first_words (2 * count) (G.stream words.old)) count s.list) }
    ensures after { OnOk result (StandAfter model.now (machine chooser.old) depth count (G.stream words.old) (count - 1) (G.stream words.new) (machine chooser.new)) }
    ensures stopped { OnErr result ((k : ℕ) × (k < count) × StandAfter model.now (machine chooser.old) depth count (G.stream words.old) k (G.stream words.new) (machine chooser.new)) }
{
    // what is known of each model
    let _ = model.parts();
    let mut kept = no_tables(alloc, model)?;
    let mut list = SampleList::new(alloc);
    list.push(Sample {
        action: 0,
        observation: 0,
        weights: initial(alloc, model)?,
    })?;
    for k in 0..count - 1 {
        let (action, word) = draw(k % depth, model.action_count(), words, chooser);
        let parent = list.at(parent_of(k, depth));
        let next = drawn(alloc, model, &mut kept, &parent.weights, action, word)?;
        list.push(next)?;
    }
    Ok(Samples { list, depth })
}

/// The number of the belief after which belief `k + 1` is next.
fn parent_of(k: u64, depth: u64) -> u64
    requires { 0 < depth }
    ensures { result ≡ parent_number depth k }
{
    if k % depth == 0 { 0 } else { k }
}

/// The action for a first word, and a second word.
fn draw<G: Rng>(depth: u64, actions: u64, words: &mut G, chooser: &mut dyn Chooser) -> (u64, u64)
    requires { 0 < actions }
    ensures below { result.0 < actions }
    ensures action { result.0 ≡ answer_of (machine chooser.old) depth actions (word_at (G.stream words.old) 0) }
    ensures word { result.1 ≡ word_at (G.stream words.old) 1 }
    ensures words { G.stream words.new ≡ left_after 2 (G.stream words.old) }
    ensures chooser { machine chooser.new ≡ after_answer (machine chooser.old) depth actions (word_at (G.stream words.old) 0) }
{
    let action = chooser.choose(depth, actions, words.next_u64());
    (action, words.next_u64())
}
