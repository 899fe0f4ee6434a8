//! Numbers of points.

ghost use Rattle.std.specs.Prelude.{◌≡◌, ◌≤◌, ◌^◌};
ghost use Rattle.sp_theory.specs.Points.{count_of};
ghost use Rattle.sp_model.specs.Problem.{sizes_of};
ghost use Rattle.sp_model.specs.Sizes.{AllSome};

use crate::parts::Decl;

/// How many choices of a value for each of these there are.
pub(crate) fn point_count(decls: &[Decl]) -> u64
    requires some { AllSome (sizes_of decls.now) }
    requires few { count_of (sizes_of decls.now) ≤ 2 ^ 24 }
    ensures { result ≡ count_of (sizes_of decls.now) }
{
    let mut count = 1;
    for decl in decls {
        count *= decl.values.len();
    }
    count
}
