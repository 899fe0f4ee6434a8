//! Refusals with their places, and the one that is answered.

ghost use Rattle.std.specs.Prelude.{◌≡◌};
ghost use Rattle.sp_trees.specs.Refusals as spec;

/// Why a model text is refused, in the order in which refusals at one place are answered.
#[derive(Clone, Copy, Debug, Drop, PartialEq, Eq)]
pub enum ModelKind {
    /// A variable, a value, an observation variable or a dd that isn't declared before.
    UnknownName,
    /// A name, a value, an item or a section that stands a second time.
    RepeatedName,
    /// A node that doesn't list every value of its variable.
    MissingValue,
    /// An action without the table of an observation variable, or a text without `init`, `discount` or an action.
    MissingPart,
    /// A variable that may not be mentioned there, or an initial belief whose factors don't divide the variables.
    BadScope,
    /// A number that isn't a decimal.
    BadNumber,
    /// A number or a partial product that isn't a whole number of ticks.
    TooFine,
    /// A number or a partial result above 10^18 ticks in magnitude.
    TooLarge,
    /// A probability outside 0 and 1.
    BadProbability,
    /// A row of a table that doesn't sum to one: the first one, and its sum in ticks.
    RowSum {
        action: u64,
        /// The number of a variable; observation variables follow the state variables.
        variable: u64,
        row: u64,
        sum: i128,
    },
    /// A factor of the initial belief that doesn't sum to one: its sum in ticks.
    InitSum {
        sum: i128,
    },
    /// A discount outside 0 and 0.999.
    DiscountRange,
    /// A reward above 10^15 ticks in magnitude.
    RewardRange,
    /// More parts of a sort than a model may have.
    TooMany {
        limit: u64,
    },
}

/// A refusal, and the byte at which its cause begins.
#[derive(Clone, Copy, Debug, Drop, PartialEq, Eq)]
pub struct Refusal {
    pub at: u64,
    pub kind: ModelKind,
}

fn rank(kind: ModelKind) -> u64
    ensures { result ≡ spec.rank kind }
{
    match kind {
        ModelKind::UnknownName => 0,
        ModelKind::RepeatedName => 1,
        ModelKind::MissingValue => 2,
        ModelKind::MissingPart => 3,
        ModelKind::BadScope => 4,
        ModelKind::BadNumber => 5,
        ModelKind::TooFine => 6,
        ModelKind::TooLarge => 7,
        ModelKind::BadProbability => 8,
        ModelKind::RowSum { .. } => 9,
        ModelKind::InitSum { .. } => 10,
        ModelKind::DiscountRange => 11,
        ModelKind::RewardRange => 12,
        ModelKind::TooMany { .. } => 13,
    }
}

fn is_before(a: Refusal, b: Refusal) -> bool
    ensures { result ≡ spec.is_before a b }
{
    if a.at == b.at {
        rank(a.kind) < rank(b.kind)
    } else {
        a.at < b.at
    }
}

/// The one of the lesser place, and at one place the one whose kind stands first in the list of kinds. Takes no memory.
pub fn lesser(a: Option<Refusal>, b: Option<Refusal>) -> Option<Refusal>
    ensures { result ≡ spec.lesser a b }
{
    match a {
        None => b,
        Some(x) => match b {
            None => a,
            Some(y) => { if is_before(y, x) { b } else { a } }
        },
    }
}

/// A refusal where the test says so. Takes no memory.
pub fn refused_if(test: bool, at: u64, kind: ModelKind) -> Option<Refusal>
    ensures { result ≡ spec.refused_if test at kind }
{
    if test {
        Some(Refusal { at, kind })
    } else {
        None
    }
}
