//! Laws of values in bytes.
ghost use Rattle.pli_bytes.specs.laws.ContentsLaws.{Counted, Described, OnPaths, PartCopied, PartPut, PartValues};

/// A law: the values of a part are those of its bytes, and where these are put or copied, its values are, and no others
/// change.
pub fn parts_are_their_bytes()
    ensures counted { Counted }
    ensures described { Described }
    ensures values { PartValues }
    ensures put { PartPut }
    ensures copied { PartCopied }
{}

/// A law: each scalar of a description lies where each path to it leads.
#[tactic(auto, using(crate::proofs::ScalarPaths::on_paths))]
pub fn scalars_are_places()
    ensures { OnPaths }
{}
