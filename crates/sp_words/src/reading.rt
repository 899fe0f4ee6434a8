//! Reads the words of a command line.

ghost use Rattle.std.specs.Prelude.{◌≡◌, ◌≢◌, ℕ, List, ◌∷◌, codes, map, cond, IfOk, MatchOption, string_bytes, Err, Bool};
ghost use Rattle.sp_words.specs.Pieces.{item_of};
ghost use Rattle.sp_words.specs.Jobs.{Asks, AsksByList, AsksBehind, IsPlanJob, HavePlanNumbers, HasExplore, IsPlacedAlone, ArePlacedAlone, IsNumberAlone, IsPossible, IsCommandWord};
ghost use Rattle.sp_words.specs.Items.{HasFlag};
ghost use Rattle.sp_words.specs.declared.job.Job.{Job};
ghost use Rattle.sp_words.specs.declared.job.Job.TheVariants.{Help, Version};
ghost use Rattle.sp_words.specs.declared.job.PlanNumbers.{PlanNumbers};
ghost use Rattle.sp_words.specs.declared.job.PlanWords.{PlanWords};

use crate::job::{Job, Name, PlanNumbers, PlanWords, WordsError, name_of};
use crate::pieces::{
    Piece, file_of, flag_count, lacks, number_in, number_of, only_place, only_value, pieces_of,
    placed,
};
use crate::taken::read_by_parser;
use std::alloc::Global;

/// What the words of a call ask for: what is listed, and where they aren't of the list what the parser of command lines makes of them.
pub fn read_words(alloc: Global, words: &[String]) -> Result<Job, WordsError>
    ensures asks { IfOk result (λ job. Asks (map string_bytes words.now) job) }
    ensures possible { IfOk result IsPossible }
    ensures usage { result ≡ Err WordsError.Usage → (job : Job) → ¬ (Asks (map string_bytes words.now) job) }
{
    match read_listed(alloc, words) {
        Ok(job) => Ok(job),
        Err(WordsError::Usage) => read_by_parser(alloc, words),
        Err(WordsError::NoMemory) => Err(WordsError::NoMemory),
    }
}

/// What the words ask for as they are listed.
fn read_listed(alloc: Global, words: &[String]) -> Result<Job, WordsError>
    ensures asks { IfOk result (λ job. AsksByList (map string_bytes words.now) job) }
    ensures usage { result ≡ Err WordsError.Usage → (job : Job) → ¬ (AsksByList (map string_bytes words.now) job) }
{
    if let Some(rest) = words_behind(words, "plan") {
        return plan(alloc, rest);
    }
    if let Some(rest) = words_behind(words, "check") {
        return check(alloc, rest);
    }
    if let Some(rest) = words_behind(words, "show") {
        return show(alloc, rest);
    }
    if let Some(rest) = words_behind(words, "gen") {
        return generate(rest);
    }
    if let Some(rest) = words_behind(words, "trial") {
        return trial(rest);
    }
    if let Some(rest) = words_behind(words, "audit") {
        return audit(alloc, rest);
    }
    if let Some(rest) = words_behind(words, "migrate") {
        return migrate(alloc, rest);
    }
    if let Some(rest) = words_behind(words, "act") {
        return act(alloc, rest);
    }
    told(words)
}

/// What a word asks for that stands alone: help, or the version.
fn told(words: &[String]) -> Result<Job, WordsError>
    ensures asks { IfOk result (λ job. AsksByList (map string_bytes words.now) job) }
    ensures usage { result ≡ Err WordsError.Usage → ¬ (AsksByList (map string_bytes words.now) Help) × ¬ (AsksByList (map string_bytes words.now) Version) }
{
    let [word] = words else {
        return Err(WordsError::Usage);
    };
    match word.as_str() {
        "--help" | "-h" | "help" => Ok(Job::Help),
        "--version" | "-V" => Ok(Job::Version),
        _ => Err(WordsError::Usage),
    }
}

/// The words behind the command, if it is this one.
fn words_behind<'a>(words: &'a [String], command: &str) -> Option<&'a [String]>
    ensures { MatchOption result ((rest : List (List ℕ)) → ¬ (map string_bytes words.now ≡ command.now ∷ rest)) (λ r. map string_bytes words.now ≡ command.now ∷ map string_bytes r.now) }
{
    let (first, rest) = words.split_first()?;
    if first.as_str() == command {
        Some(rest)
    } else {
        None
    }
}

/// The plan that the words behind the command ask for.
fn plan(alloc: Global, words: &[String]) -> Result<Job, WordsError>
    ensures asks { IfOk result (λ job. IsCommandWord job (codes "plan") × AsksBehind (map string_bytes words.now) job) }
    ensures usage { result ≡ Err WordsError.Usage → (job : Job) → IsCommandWord job (codes "plan") → ¬ (AsksBehind (map string_bytes words.now) job) }
{
    let options = [
        "--beliefs",
        "--depth",
        "--stages",
        "--seed",
        "--workers",
        "--explore",
        "--sessions",
    ];
    let pieces = match pieces_of(alloc, words, &options, &["--prune"]) {
        Ok(pieces) => pieces,
        Err(error) => return Err(error),
    };
    match plan_in(alloc, &pieces) {
        Ok(plan) => Ok(Job::Plan(plan)),
        Err(error) => Err(error),
    }
}

/// The plan that pieces ask for.
fn plan_in(alloc: Global, pieces: &[Piece<'_>]) -> Result<PlanWords, WordsError>
    ensures plan { IfOk result (λ p. IsPlanJob (map item_of pieces.now) p) }
    ensures usage { result ≡ Err WordsError.Usage → (p : PlanWords) → ¬ (IsPlanJob (map item_of pieces.now) p) }
{
    let Some(model) = only_place(pieces) else {
        return Err(WordsError::Usage);
    };
    let Some(numbers) = numbers_in(pieces) else {
        return Err(WordsError::Usage);
    };
    let Some(prune) = flag_of(pieces, "--prune") else {
        return Err(WordsError::Usage);
    };
    let Some(sweep) = explore_of(pieces) else {
        return Err(WordsError::Usage);
    };
    let Some(sessions) = file_of(pieces, "--sessions") else {
        return Err(WordsError::Usage);
    };
    let sessions = name_of(alloc, sessions)?;
    let model = Name::new(alloc, model)?;
    Ok(PlanWords {
        model,
        beliefs: numbers.beliefs,
        depth: numbers.depth,
        stages: numbers.stages,
        seed: numbers.seed,
        workers: numbers.workers,
        prune,
        sweep,
        sessions,
    })
}

/// The numbers of a plan that pieces have.
fn numbers_in(pieces: &[Piece<'_>]) -> Option<PlanNumbers>
    ensures { MatchOption result ((numbers : PlanNumbers) → ¬ (HavePlanNumbers (map item_of pieces.now) numbers)) (λ numbers. HavePlanNumbers (map item_of pieces.now) numbers) }
{
    let beliefs = number_of(pieces, "--beliefs", 1, 4096)?;
    let depth = number_of(pieces, "--depth", 1, 4096)?;
    let stages = number_of(pieces, "--stages", 1, 1000)?;
    let seed = number_of(pieces, "--seed", 0, u64::MAX)?;
    let workers = number_of(pieces, "--workers", 0, 64)?;
    Some(PlanNumbers {
        beliefs,
        depth,
        stages,
        seed,
        workers,
    })
}

/// Whether a flag is there, if it isn't there more than once.
fn flag_of(pieces: &[Piece<'_>], flag: &str) -> Option<bool>
    ensures { MatchOption result ((is : Bool) → ¬ (HasFlag (map item_of pieces.now) flag.now is)) (λ is. HasFlag (map item_of pieces.now) flag.now is) }
{
    match flag_count(pieces, flag) {
        0 => Some(false),
        1 => Some(true),
        _ => None,
    }
}

/// Whether the actions are explored in turn, if the words say one way.
fn explore_of(pieces: &[Piece<'_>]) -> Option<bool>
    ensures { MatchOption result ((sweep : Bool) → ¬ (HasExplore (map item_of pieces.now) sweep)) (λ sweep. HasExplore (map item_of pieces.now) sweep) }
{
    if lacks(pieces, "--explore") {
        return Some(false);
    }
    match only_value(pieces, "--explore") {
        None => None,
        Some(value) => sweep_in(value),
    }
}

/// Whether a word names the exploring in turn, if it names a way.
fn sweep_in(word: &str) -> Option<bool>
    ensures { MatchOption result ((word.now ≢ codes "uniform") × (word.now ≢ codes "sweep")) (λ sweep. word.now ≡ cond sweep (codes "sweep") (codes "uniform")) }
{
    if word == "uniform" {
        return Some(false);
    }
    if word == "sweep" { Some(true) } else { None }
}

/// The one word by itself behind a command without options.
fn place_behind<'a>(words: &'a [String]) -> Option<&'a str>
    ensures { MatchOption result ((word : List ℕ) → ¬ (IsPlacedAlone (map string_bytes words.now) word)) (λ word. IsPlacedAlone (map string_bytes words.now) word.now) }
{
    match words {
        [word] => placed(word.as_str()),
        _ => None,
    }
}

/// The two words by themselves behind a command without options.
fn places_behind<'a>(words: &'a [String]) -> Option<(&'a str, &'a str)>
    ensures { MatchOption result ((first second : List ℕ) → ¬ (ArePlacedAlone (map string_bytes words.now) first second)) (λ pair. ArePlacedAlone (map string_bytes words.now) pair.0.now pair.1.now) }
{
    match words {
        [first, second] => {
            let first = placed(first.as_str())?;
            let second = placed(second.as_str())?;
            Some((first, second))
        }
        _ => None,
    }
}

/// The name of the one file behind a command without options.
fn file_behind(alloc: Global, words: &[String]) -> Result<Name, WordsError>
    ensures asks { IfOk result (λ file. IsPlacedAlone (map string_bytes words.now) file) }
    ensures usage { result ≡ Err WordsError.Usage → (file : List ℕ) → ¬ (IsPlacedAlone (map string_bytes words.now) file) }
{
    match place_behind(words) {
        Some(file) => {
            let file = Name::new(alloc, file)?;
            Ok(file)
        }
        None => Err(WordsError::Usage),
    }
}

/// The check that the words behind the command ask for.
fn check(alloc: Global, words: &[String]) -> Result<Job, WordsError>
    ensures asks { IfOk result (λ job. IsCommandWord job (codes "check") × AsksBehind (map string_bytes words.now) job) }
    ensures usage { result ≡ Err WordsError.Usage → (job : Job) → IsCommandWord job (codes "check") → ¬ (AsksBehind (map string_bytes words.now) job) }
{
    match file_behind(alloc, words) {
        Ok(model) => Ok(Job::Check { model }),
        Err(error) => Err(error),
    }
}

/// The canonical text that the words behind the command ask for.
fn show(alloc: Global, words: &[String]) -> Result<Job, WordsError>
    ensures asks { IfOk result (λ job. IsCommandWord job (codes "show") × AsksBehind (map string_bytes words.now) job) }
    ensures usage { result ≡ Err WordsError.Usage → (job : Job) → IsCommandWord job (codes "show") → ¬ (AsksBehind (map string_bytes words.now) job) }
{
    match file_behind(alloc, words) {
        Ok(model) => Ok(Job::Show { model }),
        Err(error) => Err(error),
    }
}

/// The number behind a command that takes one.
fn number_behind(words: &[String]) -> Option<u64>
    ensures { MatchOption result ((n : ℕ) → ¬ (IsNumberAlone (map string_bytes words.now) n)) (λ n. IsNumberAlone (map string_bytes words.now) n) }
{
    match place_behind(words) {
        Some(word) => number_in(word, 0, 16),
        None => None,
    }
}

/// The generated model that the words behind the command ask for.
fn generate(words: &[String]) -> Result<Job, WordsError>
    ensures asks { IfOk result (λ job. IsCommandWord job (codes "gen") × AsksBehind (map string_bytes words.now) job) }
    ensures usage { result ≡ Err WordsError.Usage → (job : Job) → IsCommandWord job (codes "gen") → ¬ (AsksBehind (map string_bytes words.now) job) }
{
    match number_behind(words) {
        Some(number) => Ok(Job::Gen { number }),
        None => Err(WordsError::Usage),
    }
}

/// The trial that the words behind the command ask for.
fn trial(words: &[String]) -> Result<Job, WordsError>
    ensures asks { IfOk result (λ job. IsCommandWord job (codes "trial") × AsksBehind (map string_bytes words.now) job) }
    ensures usage { result ≡ Err WordsError.Usage → (job : Job) → IsCommandWord job (codes "trial") → ¬ (AsksBehind (map string_bytes words.now) job) }
{
    match number_behind(words) {
        Some(number) => Ok(Job::Trial { number }),
        None => Err(WordsError::Usage),
    }
}

/// The judging of a plan file that the words behind the command ask for.
fn audit(alloc: Global, words: &[String]) -> Result<Job, WordsError>
    ensures asks { IfOk result (λ job. IsCommandWord job (codes "audit") × AsksBehind (map string_bytes words.now) job) }
    ensures usage { result ≡ Err WordsError.Usage → (job : Job) → IsCommandWord job (codes "audit") → ¬ (AsksBehind (map string_bytes words.now) job) }
{
    match file_behind(alloc, words) {
        Ok(plan) => Ok(Job::Audit { plan }),
        Err(error) => Err(error),
    }
}

/// The plan file in its newest version that the words behind the command ask for.
fn migrate(alloc: Global, words: &[String]) -> Result<Job, WordsError>
    ensures asks { IfOk result (λ job. IsCommandWord job (codes "migrate") × AsksBehind (map string_bytes words.now) job) }
    ensures usage { result ≡ Err WordsError.Usage → (job : Job) → IsCommandWord job (codes "migrate") → ¬ (AsksBehind (map string_bytes words.now) job) }
{
    match file_behind(alloc, words) {
        Ok(plan) => Ok(Job::Migrate { plan }),
        Err(error) => Err(error),
    }
}

/// The serving of a script on a plan file that the words behind the command ask for.
fn act(alloc: Global, words: &[String]) -> Result<Job, WordsError>
    ensures asks { IfOk result (λ job. IsCommandWord job (codes "act") × AsksBehind (map string_bytes words.now) job) }
    ensures usage { result ≡ Err WordsError.Usage → (job : Job) → IsCommandWord job (codes "act") → ¬ (AsksBehind (map string_bytes words.now) job) }
{
    let Some((plan, script)) = places_behind(words) else {
        return Err(WordsError::Usage);
    };
    let plan = Name::new(alloc, plan)?;
    let script = Name::new(alloc, script)?;
    Ok(Job::Act { plan, script })
}
