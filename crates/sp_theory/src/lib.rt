//! The theory of the planner: what a factored POMDP, a conditional plan, a point-based backup and a legal planning run are
//! (`specs/`), and the laws that hold of them.
//!
//! There is no code to run here. Each function below has an empty body, and its contract is a law: a caller that writes
//! `sp_theory::step_is_close();` knows the law from there on.
//!
//! Values are whole numbers of ticks of 10^-9, probabilities whole numbers of ticks of 10^-9, and weights whole numbers.
#![tactic(auto)]

mod beliefs;
mod sessions;

ghost use Rattle.std.specs.Prelude.{ℕ};
ghost use Rattle.sp_theory.specs.BooksAgreement.{EditionsAreAlike, BooksGoOnAlike};
ghost use Rattle.sp_theory.specs.Domination.{DominatedAreThose};
ghost use Rattle.sp_theory.specs.Laws.{RangeIsExact, RangeIsBounded, LegalRunsEndOnce, WeighingIsClose, WeighingsAreClose, StepIsClose, StepIsInRange, EstimateIsClose, BackupIsClose, ReturnsAreFromLeast, VectorsAreLowerBounds, PruningKeepsValues, RunsAreSound, RecordedBackupsAreClose, StagesArePublished, PublicationsFollowSettles, DominatedMayGo, SettleGoesOn, PruneGoesOn, OneThreadGoesOn, OneThreadIsPrompt, GreatestIsLeast, SettleImproves, EndFollowsPublication, OneThreadCompletes, OneThreadEnds};
ghost use Rattle.sp_theory.specs.Values.{Member};

pub use beliefs::{
    drawn_is_seen, initial_is_scaled, limits_keep_weight, next_is_scaled, ruled_out_is_unseen,
    sample_is_next, samples_are_next, scaling_gives_scale, something_is_seen, unseen_is_slight,
    update_gains_nothing, update_is_close,
};
pub use sessions::{
    legal_logs_agree, legal_logs_close_once, logs_never_go_back, seen_logs_are_of_runs,
};

/// The least return and the top are the worth of the least and the greatest reward for ever, rounded outwards.
pub fn range_is_exact()
    ensures { RangeIsExact }
{}

/// The least return and the top are within a thousand times the magnitude of the rewards.
pub fn range_is_bounded()
    ensures { RangeIsBounded }
{}

/// One variable weighed out with a floor is at most the exact sum and less than one below it, monotone, and in range.
pub fn weighing_is_close()
    ensures { WeighingIsClose }
{}

/// Several variables weighed out are at most the exact expectation, and at most one below it for each variable.
pub fn weighings_are_close()
    ensures { WeighingsAreClose }
{}

/// The floored one-step value is at most the exact one, and at most a tick for each variable and the discount below it.
pub fn step_is_close()
    ensures { StepIsClose }
{}

/// The floored one-step value is between the least return and the top.
pub fn step_is_in_range()
    ensures { StepIsInRange }
{}

/// An estimate is at most the exact one, and at most a tick for each variable and unit of weight below it.
pub fn estimate_is_close()
    ensures { EstimateIsClose }
{}

/// The backup at a belief is at most the exact backup there, and at most K ticks for each unit of weight below it.
pub fn backup_is_close()
    ensures { BackupIsClose }
{}

/// The greatest of some members, or of some actions, is one of them; none is above it, and of equal ones it has the least number.
pub fn greatest_is_least()
    ensures { GreatestIsLeast Member × GreatestIsLeast ℕ }
{}

/// No plan is worth less than the least return.
pub fn returns_are_from_least()
    ensures { ReturnsAreFromLeast }
{}

/// Each vector of a plan is at most the exact return of its record, and between the least return and the top.
pub fn vectors_are_lower_bounds()
    ensures { VectorsAreLowerBounds }
{}

/// Members that may go change no value.
pub fn pruning_keeps_values()
    ensures { PruningKeepsValues }
{}

/// The dominated members of an edition may go.
pub fn dominated_may_go()
    ensures { DominatedMayGo }
{}

/// The dominated members of an edition are those that are nowhere above another one (of two equal ones the one of the greater id),
/// in order, all of them, each with the least id of such another one.
pub fn dominated_are_those()
    ensures { DominatedAreThose }
{}

/// A run keeps its book sound: vectors are at most exact returns, sampled values never fall, no edition is empty or repeats a record.
pub fn runs_are_sound()
    ensures { RunsAreSound }
{}

/// Each backup that a run records is close to the exact backup on its edition.
pub fn recorded_backups_are_close()
    ensures { RecordedBackupsAreClose }
{}

/// A legal run ends with the end, which stands once.
pub fn legal_runs_end_once()
    ensures { LegalRunsEndOnce }
{}

/// In a prompt run the publications so far and the stages that are left are all stages; at its end each is published.
pub fn stages_are_published()
    ensures { StagesArePublished }
{}

/// In a prompt run each publication stands directly after the settle that raised the last flag.
pub fn publications_follow_settles()
    ensures { PublicationsFollowSettles }
{}

/// In a prompt run the end stands directly after a publication.
pub fn end_follows_publication()
    ensures { EndFollowsPublication }
{}

/// A settle raises the flag of its belief, and lowers none.
pub fn settle_improves()
    ensures { SettleImproves }
{}

/// Between turns a settle goes on promptly with what is due after it.
pub fn settle_goes_on()
    ensures { SettleGoesOn }
{}

/// Between turns a prune goes on promptly.
pub fn prune_goes_on()
    ensures { PruneGoesOn }
{}

/// Between turns one thread goes on promptly, whatever the words that pick its beliefs.
pub fn one_thread_goes_on()
    ensures { OneThreadGoesOn }
{}

/// The events of one thread from the opening are allowed and prompt, whatever the words that pick its beliefs.
pub fn one_thread_is_prompt()
    ensures { OneThreadIsPrompt }
{}

/// One thread brings a run that is between turns to its end, within as many words as there are beliefs times stages left.
pub fn one_thread_completes()
    ensures { OneThreadCompletes }
{}

/// From the opening one thread makes a legal run, within as many words as there are beliefs times stages.
pub fn one_thread_ends()
    ensures { OneThreadEnds }
{}

/// Editions and weights that agree at all states have the same values, backups and dominated pairs.
pub fn editions_are_alike()
    ensures { EditionsAreAlike }
{}

/// Books that agree at all states allow the same events, after which they agree.
pub fn books_go_on_alike()
    ensures { BooksGoOnAlike }
{}
