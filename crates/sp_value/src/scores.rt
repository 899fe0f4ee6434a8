//! Which of two scores is the better one.

ghost use Rattle.std.specs.Prelude.{◌≡◌};
ghost use Rattle.sp_value.specs.Scores.{outdoes};

/// Whether a score is better than another: it is greater, or as great with a lesser number.
pub fn is_better(score: i128, id: u64, than: i128, than_id: u64) -> bool
    ensures { result ≡ outdoes score id than than_id }
{
    than < score || (!(score < than) && id < than_id)
}
