//! What holds of the text of a plan. Each function does nothing: its contract is the law.

ghost use Rattle.sp_planfile.specs.Laws.{TextTellsContents, NoTextIsBeginning};

/// A plan file says one thing: what is in form and differs, in whatever versions, has different texts.
pub fn text_tells_contents()
    ensures { TextTellsContents }
{}

/// A beginning of a plan file is none: no text is a proper beginning of another.
pub fn no_text_is_beginning()
    ensures { NoTextIsBeginning }
{}
