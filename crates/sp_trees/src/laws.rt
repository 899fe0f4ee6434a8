//! What judged trees mean, and what refuses them. The functions do nothing: their contracts are the laws.

ghost use Rattle.sp_trees.specs.Values.{ValuesAreTheTrees};
ghost use Rattle.sp_trees.specs.Rows.{TreeRowsAreRefusals};
ghost use Rattle.sp_trees.specs.Told.{TreesAreTold};

/// The function of a tree that isn't refused has, at each point, the value of the tree there.
pub fn values_are_the_trees()
    ensures { ValuesAreTheTrees }
{}

/// The refusal that judging a tree gives is the first of the rows of the table that hold, and it gives none exactly where
/// no row holds.
pub fn rows_are_refusals()
    ensures { TreeRowsAreRefusals }
{}

/// What judging says that a tree mentions, and the function that it gives, are those that the text tells.
pub fn trees_are_told()
    ensures { TreesAreTold }
{}
