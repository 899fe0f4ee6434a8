//! What holds of words. The function does nothing: its contract is the law.

ghost use Rattle.sp_words.specs.Jobs.{AskOnce};

/// The same words ask for one job at most.
pub fn words_ask_once()
    ensures { AskOnce }
{}
