//! What words ask for.

use crate::lines::push_text;
use crate::stopped::Stopped;
use sp_words::{Job, PlanWords, WordsError, read_by_parser, read_words};
use std::alloc::{AllocError, Global};

/// Adds what the words ask for, and what the parser alone takes them for.
pub fn push_jobs(alloc: Global, out: &mut Vec<u8>, words: &[String]) -> Result<(), Stopped> {
    push_job(alloc, out, "asks", read_words(alloc, words))?;
    push_job(alloc, out, "takes", read_by_parser(alloc, words))
}

/// Adds a job, or why there is none.
fn push_job(
    alloc: Global,
    out: &mut Vec<u8>,
    word: &str,
    job: Result<Job, WordsError>,
) -> Result<(), Stopped> {
    match job {
        Ok(job) => push_asked(alloc, out, word, &job),
        Err(WordsError::Usage) => push_text(alloc, out, word, "usage"),
        Err(WordsError::NoMemory) => Err(Stopped),
    }
}

/// Adds a job.
fn push_asked(alloc: Global, out: &mut Vec<u8>, word: &str, job: &Job) -> Result<(), Stopped> {
    let text = text_of(alloc, job)?;
    push_text(alloc, out, word, text.as_str())
}

/// A job in words.
fn text_of(alloc: Global, job: &Job) -> Result<String, AllocError> {
    match job {
        Job::Plan(plan) => plan_text(alloc, plan),
        Job::Check { model } => format!(in alloc; "check {}", model.as_str()),
        Job::Show { model } => format!(in alloc; "show {}", model.as_str()),
        Job::Gen { number } => format!(in alloc; "gen {number}"),
        Job::Trial { number } => format!(in alloc; "trial {number}"),
        Job::Audit { plan } => format!(in alloc; "audit {}", plan.as_str()),
        Job::Migrate { plan } => format!(in alloc; "migrate {}", plan.as_str()),
        Job::Act { plan, script } => {
            format!(in alloc; "act {} {}", plan.as_str(), script.as_str())
        }
        Job::Help => "help".to_string(alloc),
        Job::Version => "version".to_string(alloc),
    }
}

/// A plan in words.
fn plan_text(alloc: Global, plan: &PlanWords) -> Result<String, AllocError> {
    let mut text = numbers_text(alloc, plan)?;
    if let Some(script) = &plan.sessions {
        text.push_str(" sessions ")?;
        text.push_str(script.as_str())?;
    }
    Ok(text)
}

/// A plan in words, without its script.
fn numbers_text(alloc: Global, plan: &PlanWords) -> Result<String, AllocError> {
    format!(in alloc;
        "plan {} beliefs {} depth {} stages {} seed {} workers {} prune {} sweep {}",
        plan.model.as_str(),
        plan.beliefs,
        plan.depth,
        plan.stages,
        plan.seed,
        plan.workers,
        plan.prune,
        plan.sweep
    )
}
