//! Laws of the members.
ghost use Rattle.pli_members.specs.examples.Examples.{LinePut, FirstLineReplaced, LastLinesRemoved, OneLineRemoved};
ghost use Rattle.pli_members.specs.examples.Examples.{NoLineZero, RemovalsInRange, RefusedInOrder};
ghost use Rattle.pli_members.specs.Versions.{NextIsNew, EditGivesNext, EditKeepsOthers, DeletionTakes};
ghost use Rattle.pli_members.specs.Versions.{DeletionKeepsOthers, RunsKeep};

/// The version that an accepted edit gives was never given before.
pub fn next_is_new()
    ensures { NextIsNew }
{}

/// A member that is edited has the version that was the next one.
pub fn edit_gives_next()
    ensures { EditGivesNext }
{}

/// An edit leaves every other member as it was.
pub fn edit_keeps_others()
    ensures { EditKeepsOthers }
{}

/// A member that is deleted is gone.
pub fn deletion_takes()
    ensures { DeletionTakes }
{}

/// A deletion leaves every other member as it was.
pub fn deletion_keeps_others()
    ensures { DeletionKeepsOthers }
{}

/// Accepted edits keep the limits, the order of the names, and versions below the next one, no two alike.
pub fn runs_keep()
    ensures { RunsKeep }
{}

/// Worked examples of changes of lines, and of what is refused first.
pub fn worked_examples()
    ensures put { LinePut }
    ensures replaced { FirstLineReplaced }
    ensures removed { LastLinesRemoved }
    ensures one_removed { OneLineRemoved }
    ensures no_line_zero { NoLineZero }
    ensures removals { RemovalsInRange }
    ensures in_order { RefusedInOrder }
{}
