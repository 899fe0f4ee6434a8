//! The lines of events.

ghost use Rattle.std.specs.Prelude.{◌≡◌, ◌≢◌, ℕ, ◌++◌, ◌∷◌, List, codes, IfOk, MatchOption};
ghost use Rattle.sp_theory.specs.Book as book;
ghost use Rattle.sp_value.specs.Events.{event_of};
ghost use Rattle.sp_lines.specs.Lines.{numbers_behind_spaces, spaced_pairs};
ghost use Rattle.sp_planfile.specs.RunText.{event_line};
ghost use Rattle.sp_filed.specs.declared.sizes.Sizes.{Sizes};
ghost use Rattle.sp_filed.specs.Sizes.{IsEventOf, IsPrune, BeginsThree};

use crate::sizes::Sizes;
use sp_dd::NoMemory;
use sp_lines::{behind, behind_space, pair_first, pairs_of, spaced_numbers};
use sp_value::Event;
use std::alloc::Global;

/// The event of which this is the line.
pub(crate) fn event_at(alloc: Global, line: &[u8], sizes: Sizes) -> Result<Option<Event>, NoMemory>
    ensures { IfOk result (λ found. MatchOption found ((x : book.Event) → IsEventOf sizes x → line.now ≢ event_line x) (λ x. IsEventOf sizes (event_of x) × (line.now ≡ event_line (event_of x)))) }
{
    if line == b"publish".as_slice() {
        return Ok(Some(Event::Publish));
    }
    if line == b"end".as_slice() {
        return Ok(Some(Event::End));
    }
    if let Some(text) = behind(line, b"settle") {
        return settle_at(alloc, text, sizes);
    }
    if let Some(text) = behind(line, b"prune") {
        return prune_at(alloc, text);
    }
    Ok(None)
}

/// The settle of these words: a belief, an edition, an action and links.
fn settle_at(alloc: Global, text: &[u8], sizes: Sizes) -> Result<Option<Event>, NoMemory>
    ensures { IfOk result (λ found. MatchOption found ((k e a : ℕ) (links : List ℕ) → IsEventOf sizes (book.settle k e a links) → text.now ≢ numbers_behind_spaces (k ∷ e ∷ a ∷ links)) (λ x. IsEventOf sizes (event_of x) × (codes "settle" ++ text.now ≡ event_line (event_of x)))) }
{
    let Some((belief, base, action, rest)) = head_of(text) else {
        return Ok(None);
    };
    let Some(links) = spaced_numbers(alloc, rest)? else {
        return Ok(None);
    };
    if belief < sizes.beliefs && action < sizes.actions && links.len() == sizes.joint {
        Ok(Some(Event::Settle {
            belief,
            base,
            action,
            links,
        }))
    } else {
        Ok(None)
    }
}

/// Three numbers, each behind a space, and what comes after them.
fn head_of(text: &[u8]) -> Option<(u64, u64, u64, &[u8])>
    ensures { MatchOption result ((k e a : ℕ) (rest : List ℕ) → ¬ (BeginsThree text.now k e a rest)) (λ r. BeginsThree text.now r.0 r.1 r.2 r.3.now) }
{
    let ((belief, base), middle) = pair_first(text)?;
    match behind_space(middle) {
        Some((action, rest)) => Some((belief, base, action, rest)),
        None => None,
    }
}

/// The prune of these words: pairs of ids.
fn prune_at(alloc: Global, text: &[u8]) -> Result<Option<Event>, NoMemory>
    ensures { IfOk result (λ found. MatchOption found ((pairs : List (ℕ × ℕ)) → IsPrune pairs → text.now ≢ spaced_pairs pairs) (λ x. ((sizes : Sizes) → IsEventOf sizes (event_of x)) × (codes "prune" ++ text.now ≡ event_line (event_of x)))) }
{
    if text.is_empty() {
        return Ok(None);
    }
    match pairs_of(alloc, text)? {
        Some(pairs) => Ok(Some(Event::Prune { pairs })),
        None => Ok(None),
    }
}
