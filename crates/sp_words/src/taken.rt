//! Reads words that aren't those of the list, as the parser of command lines takes them.

ghost use Rattle.std.specs.Prelude.{◌≡◌, ◌≢◌, ℕ, List, Bool, Option, None, Some, codes, cond, map, IfOk, MatchOption, string_bytes, Err, option_map};
ghost use Rattle.clap.specs.Words.{found_of, rows_of, first_of};
ghost use Rattle.sp_words.specs.Jobs.{AsksByParser, GivesNumber, GivesFile, GivePlanNumbers, GivesPlan, Gives, IsCommandWord};
ghost use Rattle.sp_words.specs.declared.job.Job.{Job};
ghost use Rattle.sp_words.specs.declared.job.PlanNumbers.{PlanNumbers};
ghost use Rattle.sp_words.specs.declared.job.PlanWords.{PlanWords};

use crate::commands::matches_of;
use crate::job::{Job, Name, PlanNumbers, PlanWords, WordsError, name_of};
use crate::pieces::{number_in, placed};
use clap::ArgMatches;
use clap::error::ErrorKind;
use std::alloc::Global;

/// What the words ask for by the parser of command lines alone, be they of the list or not. `read_words` asks it where they
/// aren't; it is public so that the two ways of reading can be compared on listed words.
pub fn read_by_parser(alloc: Global, words: &[String]) -> Result<Job, WordsError>
    ensures asks { IfOk result (AsksByParser (map string_bytes words.now)) }
    ensures usage { result ≡ Err WordsError.Usage → (job : Job) → ¬ (AsksByParser (map string_bytes words.now) job) }
{
    let matches = match matches_of(alloc, words) {
        Ok(matches) => matches,
        Err(error) => {
            if error.kind() == ErrorKind::OutOfMemory {
                return Err(WordsError::NoMemory);
            }
            return Err(WordsError::Usage);
        }
    };
    match matches.subcommand() {
        Some((name, inner)) => job_of(alloc, name, inner),
        None => Err(WordsError::Usage),
    }
}

/// The job that the matches of a command give.
fn job_of(alloc: Global, command: &str, matches: &ArgMatches<'_>) -> Result<Job, WordsError>
    ensures asks { IfOk result (λ job. IsCommandWord job command.now × Gives (rows_of (found_of matches.now)) job) }
    ensures usage { result ≡ Err WordsError.Usage → (job : Job) → IsCommandWord job command.now → ¬ (Gives (rows_of (found_of matches.now)) job) }
{
    if command == "plan" {
        return match plan_of(alloc, matches) {
            Ok(plan) => Ok(Job::Plan(plan)),
            Err(error) => Err(error),
        };
    }
    if command == "check" {
        return check_of(alloc, matches);
    }
    if command == "show" {
        return show_of(alloc, matches);
    }
    if command == "gen" {
        return match number_at(matches, "number", 0, 16) {
            Some(number) => Ok(Job::Gen { number }),
            None => Err(WordsError::Usage),
        };
    }
    if command == "trial" {
        return match number_at(matches, "number", 0, 16) {
            Some(number) => Ok(Job::Trial { number }),
            None => Err(WordsError::Usage),
        };
    }
    if command == "audit" {
        return audit_of(alloc, matches);
    }
    if command == "migrate" {
        return migrate_of(alloc, matches);
    }
    if command == "act" {
        return act_of(alloc, matches);
    }
    Err(WordsError::Usage)
}

/// The file that an id names.
fn file_at(alloc: Global, matches: &ArgMatches<'_>, id: &str) -> Result<Name, WordsError>
    ensures asks { IfOk result (λ file. first_of id.now (rows_of (found_of matches.now)) ≡ Some file) }
    ensures usage { result ≡ Err WordsError.Usage → first_of id.now (rows_of (found_of matches.now)) ≡ None }
{
    match text_at(matches, id) {
        Some(file) => {
            let file = Name::new(alloc, file)?;
            Ok(file)
        }
        None => Err(WordsError::Usage),
    }
}

/// The check that matches give.
fn check_of(alloc: Global, matches: &ArgMatches<'_>) -> Result<Job, WordsError>
    ensures asks { IfOk result (λ job. IsCommandWord job (codes "check") × Gives (rows_of (found_of matches.now)) job) }
    ensures usage { result ≡ Err WordsError.Usage → (job : Job) → IsCommandWord job (codes "check") → ¬ (Gives (rows_of (found_of matches.now)) job) }
{
    match file_at(alloc, matches, "model") {
        Ok(model) => Ok(Job::Check { model }),
        Err(error) => Err(error),
    }
}

/// The canonical text that matches give.
fn show_of(alloc: Global, matches: &ArgMatches<'_>) -> Result<Job, WordsError>
    ensures asks { IfOk result (λ job. IsCommandWord job (codes "show") × Gives (rows_of (found_of matches.now)) job) }
    ensures usage { result ≡ Err WordsError.Usage → (job : Job) → IsCommandWord job (codes "show") → ¬ (Gives (rows_of (found_of matches.now)) job) }
{
    match file_at(alloc, matches, "model") {
        Ok(model) => Ok(Job::Show { model }),
        Err(error) => Err(error),
    }
}

/// The judging of a plan file that matches give.
fn audit_of(alloc: Global, matches: &ArgMatches<'_>) -> Result<Job, WordsError>
    ensures asks { IfOk result (λ job. IsCommandWord job (codes "audit") × Gives (rows_of (found_of matches.now)) job) }
    ensures usage { result ≡ Err WordsError.Usage → (job : Job) → IsCommandWord job (codes "audit") → ¬ (Gives (rows_of (found_of matches.now)) job) }
{
    match file_at(alloc, matches, "plan") {
        Ok(plan) => Ok(Job::Audit { plan }),
        Err(error) => Err(error),
    }
}

/// The plan file in its newest version that matches give.
fn migrate_of(alloc: Global, matches: &ArgMatches<'_>) -> Result<Job, WordsError>
    ensures asks { IfOk result (λ job. IsCommandWord job (codes "migrate") × Gives (rows_of (found_of matches.now)) job) }
    ensures usage { result ≡ Err WordsError.Usage → (job : Job) → IsCommandWord job (codes "migrate") → ¬ (Gives (rows_of (found_of matches.now)) job) }
{
    match file_at(alloc, matches, "plan") {
        Ok(plan) => Ok(Job::Migrate { plan }),
        Err(error) => Err(error),
    }
}

/// The serving of a script on a plan file that matches give.
fn act_of(alloc: Global, matches: &ArgMatches<'_>) -> Result<Job, WordsError>
    ensures asks { IfOk result (λ job. IsCommandWord job (codes "act") × Gives (rows_of (found_of matches.now)) job) }
    ensures usage { result ≡ Err WordsError.Usage → (job : Job) → IsCommandWord job (codes "act") → ¬ (Gives (rows_of (found_of matches.now)) job) }
{
    let Some(plan) = text_at(matches, "plan") else {
        return Err(WordsError::Usage);
    };
    let Some(script) = text_at(matches, "script") else {
        return Err(WordsError::Usage);
    };
    let plan = Name::new(alloc, plan)?;
    let script = Name::new(alloc, script)?;
    Ok(Job::Act { plan, script })
}

/// The plan that matches give.
fn plan_of(alloc: Global, matches: &ArgMatches<'_>) -> Result<PlanWords, WordsError>
    ensures plan { IfOk result (λ p. GivesPlan (rows_of (found_of matches.now)) p) }
    ensures usage { result ≡ Err WordsError.Usage → (p : PlanWords) → ¬ (GivesPlan (rows_of (found_of matches.now)) p) }
{
    let Some(model) = text_at(matches, "model") else {
        return Err(WordsError::Usage);
    };
    let Some(numbers) = numbers_at(matches) else {
        return Err(WordsError::Usage);
    };
    let Some(prune) = choice_at(matches, "prune", "false", "true") else {
        return Err(WordsError::Usage);
    };
    let Some(sweep) = choice_at(matches, "explore", "uniform", "sweep") else {
        return Err(WordsError::Usage);
    };
    let Some(sessions) = option_file_at(matches, "sessions") else {
        return Err(WordsError::Usage);
    };
    let sessions = name_of(alloc, sessions)?;
    let model = Name::new(alloc, model)?;
    Ok(PlanWords {
        model,
        beliefs: numbers.beliefs,
        depth: numbers.depth,
        stages: numbers.stages,
        seed: numbers.seed,
        workers: numbers.workers,
        prune,
        sweep,
        sessions,
    })
}

/// The numbers of a plan that matches give.
fn numbers_at(matches: &ArgMatches<'_>) -> Option<PlanNumbers>
    ensures { MatchOption result ((numbers : PlanNumbers) → ¬ (GivePlanNumbers (rows_of (found_of matches.now)) numbers)) (λ numbers. GivePlanNumbers (rows_of (found_of matches.now)) numbers) }
{
    let beliefs = number_at(matches, "beliefs", 1, 4096)?;
    let depth = number_at(matches, "depth", 1, 4096)?;
    let stages = number_at(matches, "stages", 1, 1000)?;
    let seed = number_at(matches, "seed", 0, u64::MAX)?;
    let workers = number_at(matches, "workers", 0, 64)?;
    Some(PlanNumbers {
        beliefs,
        depth,
        stages,
        seed,
        workers,
    })
}

/// The text of an id.
fn text_at<'a>(matches: &ArgMatches<'a>, id: &str) -> Option<&'a str>
    ensures { MatchOption result (first_of id.now (rows_of (found_of matches.now)) ≡ None) (λ s. first_of id.now (rows_of (found_of matches.now)) ≡ Some s.now) }
{
    matches.get_str(id)
}

/// The file that an option names, or that it names none; nothing where it has what can't be a file's name.
fn option_file_at<'a>(matches: &ArgMatches<'a>, id: &str) -> Option<Option<&'a str>>
    ensures { MatchOption result ((file : Option (List ℕ)) → ¬ (GivesFile (rows_of (found_of matches.now)) id.now file)) (λ file. GivesFile (rows_of (found_of matches.now)) id.now (option_map (λ s. s.now) file)) }
{
    let Some(word) = text_at(matches, id) else {
        return Some(None);
    };
    let file = placed(word)?;
    Some(Some(file))
}

/// The number of an id, if it is one between these two.
fn number_at(matches: &ArgMatches<'_>, id: &str, low: u64, high: u64) -> Option<u64>
    ensures { MatchOption result ((n : ℕ) → ¬ (GivesNumber (rows_of (found_of matches.now)) id.now low high n)) (λ n. GivesNumber (rows_of (found_of matches.now)) id.now low high n) }
{
    match text_at(matches, id) {
        Some(text) => number_in(text, low, high),
        None => None,
    }
}

/// Which of two texts an id has, if it has one of them.
fn choice_at(matches: &ArgMatches<'_>, id: &str, first: &str, second: &str) -> Option<bool>
    ensures { MatchOption result ((is : Bool) → ¬ (first_of id.now (rows_of (found_of matches.now)) ≡ Some (cond is second.now first.now))) (λ is. first_of id.now (rows_of (found_of matches.now)) ≡ Some (cond is second.now first.now)) }
{
    match text_at(matches, id) {
        Some(text) => {
            if text == first {
                return Some(false);
            }
            if text == second { Some(true) } else { None }
        }
        None => None,
    }
}
