//! What canonical texts mean. The functions do nothing: their contracts are the laws.

ghost use Rattle.sp_read_back.specs.Declarations.{CanonicalDeclarationsAreRead};
ghost use Rattle.sp_read_back.specs.ReadBack.{CanonicalTextIsReadBack};

/// The lines of a model's declarations are read as these declarations.
pub fn canonical_declarations_are_read()
    ensures { CanonicalDeclarationsAreRead }
{}

/// The canonical text of a lawful model means that model, where each of its functions is determined by its values and its
/// lines have numbers below 2^64. Of a model in memory both hold: `text_law` says it without these premises.
pub fn canonical_text_is_read_back()
    ensures { CanonicalTextIsReadBack }
{}
