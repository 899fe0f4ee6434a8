use thiserror::Error;

/// What is at fault in a plan file.
#[derive(Clone, Copy, Debug, PartialEq, Eq)]
pub enum PlanKind {
    /// The model's lines are refused, or aren't its canonical text.
    Model,
    /// A belief's observation is unseen.
    Sample,
    /// The line isn't the one that the form needs there.
    Shape,
}

/// Why bytes are no plan file.
#[derive(Clone, Copy, Debug, PartialEq, Eq, Error)]
pub enum PlanError {
    /// The first line at fault begins at this byte, counted from 0. A missing line stands at the end of the file; of a model at fault
    /// it is the line `model`.
    #[error("byte {at}: {kind:?}")]
    Fault { at: u64, kind: PlanKind },
    #[error("out of memory")]
    NoMemory,
}
