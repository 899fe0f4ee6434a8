//! What holds of the bytes of model files. Each function does nothing: its contract is the law.

ghost use Rattle.sp_reader.specs.Sources.{AcceptedIsNotRefused, OneModel, OneRefusal};

/// Bytes that mean a model aren't refused.
pub fn accepted_is_not_refused()
    ensures { AcceptedIsNotRefused }
{}

/// Bytes mean one model at most.
pub fn one_model()
    ensures { OneModel }
{}

/// Bytes are refused at one byte at most, for one reason.
pub fn one_refusal()
    ensures { OneRefusal }
{}
