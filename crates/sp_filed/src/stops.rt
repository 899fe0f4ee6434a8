//! Why a section isn't read.

ghost use Rattle.std.specs.Prelude.{◌≡◌};
ghost use Rattle.sp_filed.specs.declared.stops.Stop.TheVariants as stops;

use sp_dd::NoMemory;

/// Why a section isn't read.
#[derive(Clone, Copy, Drop)]
pub(crate) enum Stop {
    /// The line isn't the one that the form needs: so many bytes are left from it on.
    Shape(u64),
    NoMemory,
}

impl From<NoMemory> for Stop {
    ghost from_gives = { λ _ e. e ≡ stops.NoMemory };

    fn from(_: NoMemory) -> Stop {
        Stop::NoMemory
    }
}
