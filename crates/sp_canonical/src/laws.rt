//! What holds of the canonical text's definitions. The function does nothing: its contract is the law.

ghost use Rattle.sp_canonical.specs.Laws.{NodesTellDependence};

/// Some node of a function has a slot exactly where the function depends on it: so zero nodes stand for the own variables of a
/// factor on which its function doesn't depend, and for these alone.
pub fn nodes_tell_dependence()
    ensures { NodesTellDependence }
{}
