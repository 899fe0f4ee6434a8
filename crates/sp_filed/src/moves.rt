//! The sampled beliefs of a plan file.

ghost use Rattle.std.specs.Prelude.{◌≡◌, ◌<◌, ◌≤◌, ℕ, ◌++◌, List, length, Err, IfOk};
ghost use Rattle.sp_theory.specs.Points.{count_of};
ghost use Rattle.sp_model.specs.Problem.{sizes_of};
ghost use Rattle.sp_lines.specs.Lines.{lines_of};
ghost use Rattle.sp_planfile.specs.Contents.{moves_of};
ghost use Rattle.sp_planfile.specs.PlanText.{belief_line};
ghost use Rattle.sp_filed.specs.declared.moves.Unsampled.TheVariants as stops;
ghost use Rattle.sp_filed.specs.Sampled.{AreSampledBy, StopsInMoves, IsUnseenMove, parent_number};

use crate::options::move_of;
use crate::sizes::Sizes;
use sp_belief::{NextError, initial, next};
use sp_dd::NoMemory;
use sp_lines::first_line;
use sp_model::{Model, Sample, SampleList};
use std::alloc::Global;

/// Why beliefs aren't read.
#[derive(Clone, Copy, Drop)]
pub(crate) enum Unsampled {
    /// The line isn't one of a belief: so many bytes are left from it on.
    Shape(u64),
    /// The belief's observation is unseen: so many bytes are left from its line on.
    Sample(u64),
    NoMemory,
}

impl From<NoMemory> for Unsampled {
    ghost from_gives = { λ _ e. e ≡ stops.NoMemory };

    fn from(_: NoMemory) -> Unsampled {
        Unsampled::NoMemory
    }
}

/// The beliefs of a model at a depth that a text tells, as many as the sizes say, and what stands behind their lines.
pub(crate) fn beliefs_first<'a>(
    alloc: Global,
    model: &Model,
    text: &'a [u8],
    sizes: Sizes,
    depth: u64,
) -> Result<(SampleList, &'a [u8]), Unsampled>
    requires beliefs { 0 < sizes.beliefs }
    requires depth { 0 < depth }
    requires actions { sizes.actions ≡ length model.now.actions }
    requires joint { sizes.joint ≡ count_of (sizes_of model.now.sights) }
    ensures ok { IfOk result (λ r. (text.now ≡ lines_of belief_line (moves_of r.0) ++ r.1.now) × (length r.0 ≡ sizes.beliefs) × AreSampledBy model.now sizes depth r.0) }
    ensures shape { (left : ℕ) → result ≡ Err (stops.Shape left) → StopsInMoves model.now sizes depth text.now left }
    ensures sample { (left : ℕ) → result ≡ Err (stops.Sample left) → IsUnseenMove model.now sizes depth text.now left }
{
    // what is known of each model
    let _ = model.parts();
    let mut list = SampleList::new(alloc);
    list.push(Sample {
        action: 0,
        observation: 0,
        weights: initial(alloc, model)?,
    })?;
    let mut rest = text;
    for k in 0..sizes.beliefs - 1 {
        let left = rest.len() as u64;
        let Some((line, more)) = first_line(rest) else {
            return Err(Unsampled::Shape(left));
        };
        let Some((action, observation)) = move_of(line, sizes) else {
            return Err(Unsampled::Shape(left));
        };
        let parent = list.at(parent_of(k, depth));
        match next(alloc, model, &parent.weights, action, observation) {
            Ok(weights) => list.push(Sample {
                action,
                observation,
                weights,
            })?,
            Err(NextError::Unseen) => return Err(Unsampled::Sample(left)),
            Err(NextError::NoMemory) => return Err(Unsampled::NoMemory),
        }
        rest = more;
    }
    Ok((list, rest))
}

/// The number of the belief after which belief `k + 1` is next.
fn parent_of(k: u64, depth: u64) -> u64
    requires { 0 < depth }
    ensures { result ≡ parent_number depth k }
{
    if k % depth == 0 { 0 } else { k }
}
