//! The lines of logs.

ghost use Rattle.std.specs.Prelude.{◌≡◌, ◌≢◌, ℕ, ◌<◌, ◌++◌, ◌∷◌, [], List, codes, IsTrue, ◌↔◌, MatchOption};
ghost use Rattle.sp_lines.specs.Lines.{IsSmall, numbers_behind_spaces};
ghost use Rattle.sp_theory.specs.Logs as logs;
ghost use Rattle.sp_model.specs.Words as words;
ghost use Rattle.sp_session.specs.Logs.{entry_of};
ghost use Rattle.sp_planfile.specs.PlanText.{entry_line};
ghost use Rattle.sp_planfile.specs.Form.{IsSessionName};
ghost use Rattle.sp_filed.specs.Sizes.{IsEntryWithin};

use crate::sizes::Sizes;
use sp_lines::{behind, one_number, three_numbers};
use sp_session::Entry;

/// The name of the session that this line begins.
pub(crate) fn name_at(line: &[u8]) -> Option<&[u8]>
    ensures { MatchOption result ((name : List ℕ) → IsSessionName name → line.now ≢ codes "session " ++ name) (λ name. IsSessionName name.now × (line.now ≡ codes "session " ++ name.now)) }
{
    let name = behind(line, b"session ")?;
    if is_session_name(name) {
        Some(name)
    } else {
        None
    }
}

/// Whether it is a name of 1 to 64 letters, digits, `_`, `-` and `.`.
fn is_session_name(name: &[u8]) -> bool
    ensures { IsTrue result ↔ IsSessionName name.now }
{
    if name.is_empty() || name.len() > 64 {
        return false;
    }
    name.iter().all(|byte| is_word_byte(*byte))
}

fn is_word_byte(byte: u8) -> bool
    ensures { result ≡ words.is_word_byte byte }
{
    byte.is_ascii_alphanumeric() || byte == b'_' || byte == b'-' || byte == b'.'
}

/// The entry of which this is the line.
pub(crate) fn entry_at(line: &[u8], sizes: Sizes) -> Option<Entry>
    ensures { MatchOption result ((x : logs.Entry) → IsEntryWithin sizes x → line.now ≢ entry_line x) (λ x. IsEntryWithin sizes (entry_of x) × (line.now ≡ entry_line (entry_of x))) }
{
    if let Some(text) = behind(line, b"told") {
        return Some(Entry::Told(one_number(text)?));
    }
    if let Some(text) = behind(line, b"act") {
        let (edition, member, action) = answer_at(text, sizes)?;
        return Some(Entry::Act {
            edition,
            member,
            action,
        });
    }
    if let Some(text) = behind(line, b"observe") {
        return Some(Entry::Observe(observation_at(text, sizes)?));
    }
    if let Some(text) = behind(line, b"unseen") {
        return Some(Entry::Unseen(observation_at(text, sizes)?));
    }
    let (edition, member, action) = answer_at(behind(line, b"closing")?, sizes)?;
    Some(Entry::Closing {
        edition,
        member,
        action,
    })
}

/// The edition, the member and the action of an answer.
fn answer_at(text: &[u8], sizes: Sizes) -> Option<(u64, u64, u64)>
    ensures { MatchOption result ((e id a : ℕ) → IsSmall e → IsSmall id → IsSmall a → a < sizes.actions → text.now ≢ numbers_behind_spaces (e ∷ id ∷ a ∷ [])) (λ r. IsSmall r.0 × IsSmall r.1 × IsSmall r.2 × (r.2 < sizes.actions) × (text.now ≡ numbers_behind_spaces (r.0 ∷ r.1 ∷ r.2 ∷ []))) }
{
    let (edition, member, action) = three_numbers(text)?;
    if action < sizes.actions {
        Some((edition, member, action))
    } else {
        None
    }
}

/// The number of a joint observation.
fn observation_at(text: &[u8], sizes: Sizes) -> Option<u64>
    ensures { MatchOption result ((o : ℕ) → IsSmall o → o < sizes.joint → text.now ≢ numbers_behind_spaces (o ∷ [])) (λ o. IsSmall o × (o < sizes.joint) × (text.now ≡ numbers_behind_spaces (o ∷ []))) }
{
    let observation = one_number(text)?;
    if observation < sizes.joint {
        Some(observation)
    } else {
        None
    }
}
