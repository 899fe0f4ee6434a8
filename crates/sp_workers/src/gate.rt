//! Where a test may hold planning back.

/// What is called beside planning. A gate may wait.
pub trait Gate {
    /// A worker has taken the belief of this number, and makes the backup there next. No lock is held.
    fn before_backup(&self, belief: u64);

    /// A step was made beside the planners.
    fn after_step(&self);
}

/// Holds nothing back.
#[derive(Clone, Copy, Debug, Drop)]
pub struct FreeGate;

impl Gate for FreeGate {
    fn before_backup(&self, _belief: u64) {}

    fn after_step(&self) {}
}
