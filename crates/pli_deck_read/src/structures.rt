//! Structures of members that were read.
ghost use Rattle.std.specs.Prelude.{◌≡◌, ◌++◌, ◌∷◌, [], map, IfOk, OnOk};
ghost use Rattle.std.specs.List.{list_any};
ghost use Rattle.pli_map.specs.ParameterTypes.{is_open, structure_of};
ghost use Rattle.pli_map.specs.views.DescriptionView.{description_view};
ghost use Rattle.pli_map.specs.views.ParameterView.{type_view};
ghost use Rattle.pli_deck_write.specs.answers.StatedTypes.{descriptions_among};

use pli_map::{Description, ParameterType};
use std::alloc::{AllocError, Global};

/// Whether a `*` stands in a type.
fn is_open(of: &ParameterType) -> bool
    ensures { result ≡ is_open (type_view of.now) }
{
    match of {
        ParameterType::Stated(_) => false,
        _ => true,
    }
}

/// Whether a `*` stands in one of some types.
fn one_is_open(types: &[ParameterType]) -> bool
    ensures { result ≡ list_any is_open (map type_view types.now) }
{
    for of in types {
        if is_open(of) {
            return true;
        }
    }
    false
}

/// Puts the description of a type at the end, if it is stated.
#[tactic(auto, using(pli_deck_write::proofs::DescriptionViews::types_said))]
fn push_stated(list: &mut Vec<Description>, of: ParameterType) -> Result<(), AllocError>
    ensures { OnOk result (map description_view list.new.items
        ≡ map description_view list.old.items ++ descriptions_among (type_view of ∷ [])) }
{
    match of {
        ParameterType::Stated(description) => {
            list.push(description)?;
            Ok(())
        }
        ParameterType::AnyString(_) => Ok(()),
        ParameterType::AnyArray { .. } => Ok(()),
        ParameterType::ArrayOf { .. } => Ok(()),
        ParameterType::StructureOf(_) => Ok(()),
    }
}

/// The descriptions of those types that are stated.
fn stated_among(alloc: Global, types: Vec<ParameterType>) -> Result<Vec<Description>, AllocError>
    ensures { IfOk result (λ ds. map description_view ds.items ≡ descriptions_among (map type_view types.items)) }
{
    let mut descriptions = Vec::new(alloc);
    for of in types {
        push_stated(&mut descriptions, of)?;
    }
    Ok(descriptions)
}

/// A structure of members of these types, which is stated where all of them are. An error comes where memory runs out.
pub fn structure_of(alloc: Global, members: Vec<ParameterType>) -> Result<ParameterType, AllocError>
    ensures { IfOk result (λ structure. type_view structure ≡ structure_of (map type_view members.items)) }
{
    if one_is_open(&members) {
        return Ok(ParameterType::StructureOf(members));
    }
    let descriptions = stated_among(alloc, members)?;
    Ok(ParameterType::Stated(Description::Structure(descriptions)))
}
