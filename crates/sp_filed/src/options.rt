//! The lines of options, beliefs and counts.

ghost use Rattle.std.specs.Prelude.{◌≡◌, ◌≢◌, ℕ, ◌≤◌, ◌++◌, Bool, MatchOption, IsTrue, ◌↔◌};
ghost use Rattle.sp_value.specs.declared.tasks.Options.{Options};
ghost use Rattle.sp_value.specs.declared.tasks.Explore.{Explore};
ghost use Rattle.sp_lines.specs.Lines.{IsSmall};
ghost use Rattle.sp_planfile.specs.PlanText.{options_line, explore_word, prune_word, belief_line, count_line};
ghost use Rattle.sp_planfile.specs.Form.{AreInRange};
ghost use Rattle.sp_filed.specs.Sizes.{IsMoveOf};

use crate::sizes::Sizes;
use sp_lines::{behind, one_number, pair_first, two_numbers};
use sp_value::{Explore, Options};

/// The options of which this is the line.
pub(crate) fn options_of(line: &[u8]) -> Option<Options>
    ensures { MatchOption result ((o : Options) → AreInRange o → line.now ≢ options_line o) (λ o. AreInRange o × (line.now ≡ options_line o)) }
{
    let Some(text) = behind(line, b"options") else {
        return None;
    };
    let Some(((beliefs, depth), text)) = pair_first(text) else {
        return None;
    };
    let Some(((stages, seed), text)) = pair_first(text) else {
        return None;
    };
    let Some((explore, prune)) = choices_of(text) else {
        return None;
    };
    let options = Options {
        beliefs,
        depth,
        stages,
        seed,
        explore,
        prune,
    };
    if are_in_range(options) {
        Some(options)
    } else {
        None
    }
}

/// How actions are chosen, and whether there is pruning.
fn choices_of(text: &[u8]) -> Option<(Explore, bool)>
    ensures { MatchOption result ((x : Explore) (p : Bool) → text.now ≢ explore_word x ++ prune_word p) (λ r. text.now ≡ explore_word r.0 ++ prune_word r.1) }
{
    if text == b" uniform no".as_slice() {
        Some((Explore::Uniform, false))
    } else if text == b" uniform yes".as_slice() {
        Some((Explore::Uniform, true))
    } else if text == b" sweep no".as_slice() {
        Some((Explore::Sweep, false))
    } else if text == b" sweep yes".as_slice() {
        Some((Explore::Sweep, true))
    } else {
        None
    }
}

/// Whether each option is within its limits.
fn are_in_range(options: Options) -> bool
    ensures { IsTrue result ↔ AreInRange options }
{
    is_within(options.beliefs, 4096)
        && is_within(options.depth, 4096)
        && is_within(options.stages, 1000)
}

/// Whether a number is from 1 to a limit.
fn is_within(number: u64, most: u64) -> bool
    ensures { IsTrue result ↔ ((1 ≤ number) × (number ≤ most)) }
{
    1 <= number && number <= most
}

/// The action and the joint observation of a belief of which this is the line.
pub(crate) fn move_of(line: &[u8], sizes: Sizes) -> Option<(u64, u64)>
    ensures { MatchOption result ((x : ℕ × ℕ) → IsMoveOf sizes x → line.now ≢ belief_line x) (λ x. IsMoveOf sizes x × (line.now ≡ belief_line x)) }
{
    let text = behind(line, b"belief")?;
    let (action, observation) = two_numbers(text)?;
    if action < sizes.actions && observation < sizes.joint {
        Some((action, observation))
    } else {
        None
    }
}

/// The count behind a word.
pub(crate) fn count_of(line: &[u8], word: &[u8]) -> Option<u64>
    ensures { MatchOption result ((n : ℕ) → IsSmall n → line.now ≢ count_line word.now n) (λ n. IsSmall n × (line.now ≡ count_line word.now n)) }
{
    let text = behind(line, word)?;
    one_number(text)
}
