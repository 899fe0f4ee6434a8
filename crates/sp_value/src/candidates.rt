//! Candidates.

ghost use Rattle.std.specs.Prelude.{◌≡◌};
ghost use Rattle.std.specs.Arc.{arc_value};

use crate::editions::Edition;
use sp_dd::Ids;
use sp_model::Func;
use std::marker::Model;
use std::sync::Arc;

/// A point-based backup at a sampled belief on an edition, with its value vector in ticks of 10^-9. No call takes memory.
#[derive(Drop)]
pub struct Candidate {
    belief: u64,
    base: Arc<Edition>,
    action: u64,
    links: Ids,
    vector: Func,
}

impl Model for Candidate {
    ghost use Rattle.std.specs.Arc.{arc_value};
    ghost use Rattle.sp_value.specs.Candidates.{CandidateParts, IsCandidate};

    ghost Value = { CandidateParts };

    ghost view = { λ c. record { belief = c.belief; base = arc_value c.base; action = c.action; links = c.links; vector = c.vector } };

    ghost invariant = { λ c. IsCandidate (record { belief = c.belief; base = arc_value c.base; action = c.action; links = c.links; vector = c.vector }) };
}

impl Candidate {
    ghost use Rattle.sp_value.specs.Candidates.{IsCandidate};

    /// The candidate of these parts.
    pub fn new(belief: u64, base: Arc<Edition>, action: u64, links: Ids, vector: Func) -> Candidate
        requires { IsCandidate (record { belief = belief; base = arc_value base; action = action; links = links; vector = vector }) }
        ensures { result ≡ record { belief = belief; base = arc_value base; action = action; links = links; vector = vector } }
    {
        Candidate {
            belief,
            base,
            action,
            links,
            vector,
        }
    }

    /// The number of the sampled belief.
    pub fn belief(&self) -> u64
        ensures { result ≡ self.now.belief }
    {
        self.belief
    }

    /// The edition on which it was made.
    pub fn base(&self) -> &Arc<Edition>
        ensures { arc_value result.now ≡ self.now.base }
    {
        &self.base
    }

    /// Its action.
    pub fn action(&self) -> u64
        ensures { result ≡ self.now.action }
    {
        self.action
    }

    /// The ids of the members that the joint observations lead to, in the order of the observations' numbers.
    pub fn links(&self) -> &Ids
        ensures { result.now ≡ self.now.links }
    {
        &self.links
    }

    /// Its value vector. The candidate keeps what `IsCandidate` says.
    pub fn vector(&self) -> &Func
        ensures value { result.now ≡ self.now.vector }
        ensures known { IsCandidate self.now }
    {
        &self.vector
    }

    /// Its edition, links and vector, taken out.
    pub fn open(self) -> (Arc<Edition>, Ids, Func)
        ensures base { arc_value result.0 ≡ self.base }
        ensures links { result.1 ≡ self.links }
        ensures vector { result.2 ≡ self.vector }
    {
        (self.base, self.links, self.vector)
    }
}
