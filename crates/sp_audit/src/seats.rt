//! Sessions, as their logs are read.

ghost use Rattle.std.specs.Prelude.{◌≡◌, ◌<◌, false, None, length, map, IfOk, IfSome};
ghost use Rattle.std.specs.Arc.{arc_value};
ghost use Rattle.sp_theory.specs.Points.{count_of};
ghost use Rattle.sp_model.specs.Problem.{problem, shape_of, sizes_of};

use crate::clause::Clause;
use sp_belief::{NextError, initial, next};
use sp_dd::NoMemory;
use sp_model::{Model, Weights};
use sp_value::Edition;
use std::alloc::Global;
use std::sync::Arc;

/// What a session knows after some entries of its log.
#[derive(Drop)]
pub(crate) struct Seat {
    pub(crate) weights: Weights,
    /// The edition that was last answered on or told of.
    pub(crate) newest: u64,
    /// The action of the last answer, where nothing was observed since.
    pub(crate) acted: Option<u64>,
    /// Whether the closing answer was given.
    pub(crate) closed: bool,
}

impl Seat {
    ghost use Rattle.sp_audit.specs.Seats.{AreOfModel, IsAnswerJudged, AreWeightsAfter, IsOpeningSeat, IsReplaySeat, editions_in};

    /// Before any entry.
    pub(crate) fn opened(alloc: Global, model: &Model) -> Result<Seat, NoMemory>
        ensures { IfOk result (IsOpeningSeat model.now) }
    {
        // what is known of each model
        let _ = model.parts();
        let weights = initial(alloc, model)?;
        Ok(Seat {
            weights,
            newest: 0,
            acted: None,
            closed: false,
        })
    }

    /// What an answer on an edition names wrongly, if anything.
    pub(crate) fn judge_answer(
        &self,
        alloc: Global,
        model: &Model,
        editions: &[Arc<Edition>],
        edition: u64,
        member: u64,
        action: u64,
    ) -> Result<Option<Clause>, NoMemory>
        requires editions { AreOfModel model.now (map (λ e. arc_value e) editions.now) }
        requires seat { IsReplaySeat model.now self.now }
        ensures { IfOk result (IsAnswerJudged model.now (editions_in (map (λ e. arc_value e) editions.now)) self.now edition member action) }
    {
        if edition >= editions.len() as u64 {
            return Ok(Some(Clause::Edition));
        }
        if edition < self.newest {
            return Ok(Some(Clause::Older));
        }
        let base: &Edition = &editions[edition as usize];
        let (place, _) = base.greatest_place(alloc, &self.weights)?;
        let greatest = base.members().at(place);
        if greatest.id != member {
            return Ok(Some(Clause::Greatest));
        }
        if greatest.action != action {
            return Ok(Some(Clause::Action));
        }
        Ok(None)
    }

    /// The weights after a joint observation; none where no answer came before it or where it is unseen.
    pub(crate) fn look(
        &self,
        alloc: Global,
        model: &Model,
        observation: u64,
    ) -> Result<Option<Weights>, NoMemory>
        requires seat { IsReplaySeat model.now self.now }
        requires observation { observation < count_of (sizes_of model.now.sights) }
        ensures { IfOk result (AreWeightsAfter model.now self.now observation) }
    {
        // what is known of each model
        let _ = model.parts();
        match self.acted {
            None => Ok(None),
            Some(action) => match next(alloc, model, &self.weights, action, observation) {
                Ok(weights) => Ok(Some(weights)),
                Err(NextError::Unseen) => Ok(None),
                Err(NextError::NoMemory) => Err(NoMemory),
            },
        }
    }
}
