//! Which list something belongs to, and work that is done beside the planners.

ghost use Rattle.std.specs.Prelude.{◌≡◌, ◌+◌, ◌<◌, OnErr, OnOk};
ghost use Rattle.sp_publish.specs.Published.{ListGoesOn};

use crate::notice::Notice;
use sp_dd::NoMemory;
use std::marker::Brand;

/// Which list a value belongs to, for types that say so: the number of the list and its edition 0. It has no calls.
pub trait ListName {
    ghost use Rattle.logbook.specs.Pages.{Book};
    ghost use Rattle.sp_value.specs.Editions.{EditionParts};

    ghost list: { Book };

    ghost first: { EditionParts };
}

/// A name that the proof of a call picks.
impl ListName for Brand {
    ghost use Rattle.sp_publish.specs.Names.{no_edition};

    ghost list = { record { number = 0; log_name = 0; cells_name = 0 } };

    ghost first = { no_edition };
}

/// Work in steps that is done beside the planners.
pub trait Beside: Drop {
    ghost use Rattle.std.specs.Prelude.{ℕ};
    ghost use Rattle.sp_publish.specs.Published.{PublishedList};

    /// What there is to do in all. No value of it is made.
    type Work;

    // What there is to do in all, the steps that are done with it.
    ghost work: { Self → Self.Work };

    // What it knows of the list that it was made for.
    ghost known: { Self → PublishedList };

    // How many steps are left.
    ghost steps: { Self → ℕ };

    /// How many steps are left. Takes no memory.
    fn left(&self) -> u64
        ensures { result ≡ steps self.now };

    /// Whether the next step is to be given a notice that was made just then. Takes no memory.
    fn wants_notice(&self) -> bool;

    /// The next step. At want of memory it is still to be done.
    fn step(&mut self, told: &Notice) -> Result<(), NoMemory>
        requires left { 0 < steps self.old }
        requires list { told.now.list ≡ (known self.old).list }
        ensures work { work self.new ≡ work self.old }
        ensures known { ListGoesOn (known self.old) (known self.new) }
        ensures ok { OnOk result (steps self.new + 1 ≡ steps self.old) }
        ensures err { OnErr result (steps self.new ≡ steps self.old) };
}
