//! Laws of resolved units.
ghost use Rattle.pli_resolve.specs.laws.BlockLaws.{BlocksAreOfTheTree};
ghost use Rattle.pli_resolve.specs.laws.LocatorLaws.{LocatorsAndAreasAreNamed};
ghost use Rattle.pli_resolve.specs.laws.MemberLaws.{MembersAreParts};
ghost use Rattle.pli_resolve.specs.laws.UseLaws.{UsesHaveMeanings, JumpsMeanLabels};

/// A law: the blocks of a resolved unit are those of its tree, numbered from 0 in the order in which they begin in the
/// text: what each is, the number of the block round it, its statement, and how many parameters it has.
#[tactic(auto, using(crate::proofs::BlocksOfTrees::blocks_of_the_tree))]
pub fn blocks_are_of_the_tree()
    ensures { BlocksAreOfTheTree }
{}

/// A law: in a unit whose declarations have no faults, the first name of each reference and the label of each GOTO mean
/// a built-in function or a name that a block of the unit declares.
pub fn uses_have_meanings()
    ensures { UsesHaveMeanings }
{}

/// A law: in a unit whose declarations have no faults the name in a GOTO means the label of a statement, where no other
/// name is used at its token. The statement stands on a list that the GOTO reaches, and has that label.
pub fn jumps_mean_labels()
    ensures { JumpsMeanLabels }
{}

/// A law: in a unit whose declarations have no faults the path of a member of a structure leads to a part of a variable
/// of its block, which is what the member's own declaration describes.
pub fn members_are_parts()
    ensures { MembersAreParts }
{}

/// A law: in a unit whose declarations have no faults a name in BASED means a locator without subscripts, which is not
/// based itself, and the name in OFFSET an AREA without subscripts.
pub fn locators_and_areas_are_named()
    ensures { LocatorsAndAreasAreNamed }
{}
