//! Tables of variables that keep their values.

ghost use Rattle.std.specs.Prelude.{◌≡◌, ◌<◌, ◌↔◌, IsTrue, pos};
ghost use Rattle.std.specs.Bool.{OnTrue, OnFalse};
ghost use Rattle.sp_dd.specs.Floors.{ticks};
ghost use Rattle.sp_dd.specs.Func.{size_of};
ghost use Rattle.sp_dd.specs.Operations.{IsPrimedSlot, IsRow};
ghost use Rattle.sp_dd.specs.declared.part.Part.TheVariants.{Leaf};
ghost use Rattle.sp_ddops.specs.Diagonals.{part_on_diagonal, IsIdentity};

use crate::parts::cofactor;
use sp_dd::{Diagram, Part, TICKS};

/// Whether a table of rows leads from each value of a state variable to the same value. Takes no memory, and looks at two parts for
/// each value.
pub fn keeps_value(p: &Diagram, primed: u64) -> bool
    requires primed { IsPrimedSlot p.now.shape primed }
    requires row { IsRow p.now primed }
    ensures yes { OnTrue result (IsIdentity p.now primed) }
    ensures no { OnFalse result (¬ IsIdentity p.now primed) }
{
    for value in 0..p.scope().size(primed) {
        if !is_one_at(p, primed, value) {
            return false;
        }
    }
    true
}

/// Whether a table is one (10^9 ticks) wherever a primed slot and the unprimed one before it both have that value.
fn is_one_at(p: &Diagram, primed: u64, value: u64) -> bool
    requires primed { IsPrimedSlot p.now.shape primed }
    requires value { value < size_of p.now.shape primed }
    ensures { IsTrue result ↔ (part_on_diagonal p.now primed value ≡ Leaf (pos ticks)) }
{
    let _ = p.scope();
    let nodes = p.nodes();
    let part = cofactor(nodes, primed - 1, value, p.root());
    cofactor(nodes, primed, value, part).is_same(&Part::Leaf(TICKS))
}
