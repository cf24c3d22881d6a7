//! Laws of descriptions.
ghost use Rattle.pli_declare_variables.specs.laws.DescriptionLaws.{DescribedByMembers, NotDescribed};

/// A law: in each block the description of an item is that of its members, or of its own type where it has none, with
/// its bounds; where its attributes, bounds, precision or length have a fault it has none.
pub fn descriptions_are_of_members()
    ensures described { DescribedByMembers }
    ensures none { NotDescribed }
{}
