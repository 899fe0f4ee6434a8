//! Picking a sampled belief.

ghost use Rattle.std.specs.Prelude.{◌≡◌, ◌<◌, length, get_or};
ghost use Rattle.sp_core.specs.Marks.{is_free, neither, picked_from};

/// Picks a belief that is neither improved nor taken, or where there is none, one that isn't improved: among these, in order,
/// the one at the word modulo their count.
pub(crate) fn pick(improved: &[bool], taken: &[bool], word: u64) -> usize
    requires taken { length taken.now ≡ length improved.now }
    requires some { 0 < length (neither improved.now improved.now) }
    ensures { result ≡ picked_from improved.now taken.now word }
{
    let fresh = count(improved, taken);
    if fresh > 0 {
        return nth(improved, taken, (word % fresh as u64) as usize);
    }
    let down = count(improved, improved);
    nth(improved, improved, (word % down as u64) as usize)
}

/// Whether a number has neither of two marks.
fn has_neither(marks: &[bool], others: &[bool], k: usize) -> bool
    requires marks { k < length marks.now }
    requires others { k < length others.now }
    ensures { result ≡ is_free marks.now others.now k }
{
    !(marks[k] || others[k])
}

/// How many numbers have neither of two marks.
#[tactic(auto, using(crate::proofs::Counting::counted_more))]
fn count(marks: &[bool], others: &[bool]) -> usize
    requires { length others.now ≡ length marks.now }
    ensures { result ≡ length (neither marks.now others.now) }
{
    let mut found = 0;
    for k in 0..marks.len() {
        if has_neither(marks, others, k) {
            found += 1;
        }
    }
    found
}

/// The number at a place among those that have neither of two marks.
#[tactic(auto, using(crate::proofs::Counting::counted_more, crate::proofs::Counting::found_at))]
fn nth(marks: &[bool], others: &[bool], place: usize) -> usize
    requires others { length others.now ≡ length marks.now }
    requires place { place < length (neither marks.now others.now) }
    ensures { result ≡ get_or (neither marks.now others.now) place 0 }
{
    let mut found = 0;
    for k in 0..marks.len() {
        if has_neither(marks, others, k) {
            if found == place {
                return k;
            }
            found += 1;
        }
    }
    unreachable!()
}
