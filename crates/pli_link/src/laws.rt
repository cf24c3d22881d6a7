//! Laws of linking.
ghost use Rattle.pli_link.specs.laws.LinkLaws.{LinksAreFound};
ghost use Rattle.pli_link.specs.laws.Sorting.{NamesAreSorted};
ghost use Rattle.pli_link.specs.examples.Examples.{TwoUnits, OneOfThree, NoneOfTwo, NoneCalled, OtherShared};
ghost use Rattle.pli_link.specs.examples.Examples.{SameShared, ByName, ControlledShared, OtherKind, OtherTaken};
ghost use Rattle.pli_link.specs.examples.Examples.{StarsAreStars, EntryAndVariables};
ghost use Rattle.pli_link.specs.examples.Examples.{ToldOnce, TooLarge, NotTooLarge, SharedOnce};

/// A law: the order of names with their units is a stable sort of them by name.
pub fn names_are_sorted()
    ensures { NamesAreSorted }
{}

/// A law: what linking gives is what is found with a table of procedures and one of external variables.
#[tactic(auto, using(crate::proofs::LinkAlike::links_alike))]
pub fn links_are_found()
    ensures { LinksAreFound }
{}

/// Worked examples: two main procedures, one of three units, none of two; an entry without a procedure, and with
/// another one; types with a `*`; external variables that are alike or not, in the order of their names, or CONTROLLED;
/// and modules that are too large or not.
pub fn worked_examples()
    ensures two_units { TwoUnits }
    ensures one_of_three { OneOfThree }
    ensures none_of_two { NoneOfTwo }
    ensures none_called { NoneCalled }
    ensures other_shared { OtherShared }
    ensures same_shared { SameShared }
    ensures by_name { ByName }
    ensures controlled_shared { ControlledShared }
    ensures other_kind { OtherKind }
    ensures other_taken { OtherTaken }
    ensures stars_are_stars { StarsAreStars }
    ensures entry_and_variables { EntryAndVariables }
    ensures told_once { ToldOnce }
    ensures too_large { TooLarge }
    ensures not_too_large { NotTooLarge }
    ensures shared_once { SharedOnce }
{}
