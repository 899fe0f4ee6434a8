//! The two ends of the snapshot, under the rule that each view is a beginning of the list that is shown.

use crate::log::Front;
use crate::notice::Notice;
use atomic_table::{Join, Split};
use crossbeam_utils::rule::{Outcome, Protocol};
use left_right::reader::Reader;
use left_right::writer::Writer;

/// The rule. A view is what a thread has seen, if anything.
pub struct Shown;

impl Protocol<Notice, Option<Front>> for Shown {
    ghost use Rattle.std.specs.Prelude.{None};
    ghost use Rattle.sp_publish.specs.Snapshot.{Keeps};

    ghost holds = { Keeps };

    ghost first = { None };
}

/// A step that sees the list, or that shows it longer.
pub struct Sees;

impl Outcome<Notice, Option<Front>> for Sees {
    ghost use Rattle.sp_publish.specs.Snapshot.{Seeing};

    ghost then = { Seeing };
}

/// A reader is told all that the writer has seen.
pub struct Tells;

impl Split<Option<Front>> for Tells {
    ghost left = { λ v. v };

    ghost right = { λ v. v };
}

impl Join<Option<Front>> for Tells {
    ghost use Rattle.std.specs.Prelude.{None};

    ghost both = { λ v w. w };

    ghost spent = { None };
}

pub type SnapReader = Reader<Notice, Option<Front>, Shown>;

pub type SnapWriter = Writer<Notice, Notice, Option<Front>, Shown>;
