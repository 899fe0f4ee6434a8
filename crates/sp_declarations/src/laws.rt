//! What refuses declarations, and what they declare. The functions do nothing: their contracts are the laws.

ghost use Rattle.sp_declarations.specs.Rows.{DeclarationRowsAreRefusals};
ghost use Rattle.sp_declarations.specs.Told.{DeclarationsAreTold};

/// Reading the declarations answers the row of the table that comes first, and Ok exactly where no row holds.
pub fn rows_are_refusals()
    ensures { DeclarationRowsAreRefusals }
{}

/// Declarations that aren't refused give the variables, the observation variables and the values that the text names.
pub fn declarations_are_told()
    ensures { DeclarationsAreTold }
{}
