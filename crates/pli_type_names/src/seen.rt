//! What symbols mean from where their names are used.
ghost use Rattle.std.specs.Prelude.{◌≡◌, [], false, get_or, map, option_map, reverse, slice_get};
ghost use Rattle.pli_map.specs.ParameterTypes as types;
ghost use Rattle.pli_map.specs.views.DescriptionView.{description_view};
ghost use Rattle.pli_map.specs.views.ParameterView.{type_seen, type_view};
ghost use Rattle.pli_type_rules.specs.Beginnings.{root_at};
ghost use Rattle.pli_type_rules.specs.Names.{Begins};
ghost use Rattle.pli_type_names.specs.Seen.{KeptNothing, area_from, area_kept, area_under, if_locator, kept_seen};
ghost use Rattle.pli_type_names.specs.Seen.{locator_from, locator_kept, locator_under, offset_if, procedure_seen};
ghost use Rattle.pli_type_names.specs.Seen.{storage_from};
ghost use Rattle.pli_type_names.specs.views.EntryView.{entry_view};
ghost use Rattle.pli_type_names.specs.views.MeaningView.{answer_view, meant_view, row_view};
ghost use Rattle.pli_type_names.specs.views.NameView.{part_view};
ghost use Rattle.pli_type_names.specs.views.StorageView.{locator_view, storage_view};

use crate::around::{root_from, stands_around};
use crate::entries::BlockEntry;
use crate::meanings::SymbolMeaning;
use crate::naming::{NamedAs, NamedProcedure, NamedVariable};
use crate::part::StridedPart;
use crate::place::Location;
use crate::storage::{NamedLocator, NamedStorage};
use pli_declare::SymbolKey;
use pli_map::{Description, ParameterType, TypeRef};
use pli_type_rules::Beginning;
use pli_type_tree::Callee;

/// The procedure that is the block of this number, where it may be called.
fn procedure_seen<'n, 'a>(
    around: &[usize],
    entries: &'n [BlockEntry<'a>],
    meanings: &[Vec<SymbolMeaning<'_>>],
    block: usize,
) -> NamedAs<'n, 'a>
    ensures { answer_view result ≡ procedure_seen (map row_view meanings.now) (reverse around.now)
        (slice_get (map entry_view entries.now) block) block }
{
    let Some(entry) = entries.get(block) else {
        return NamedAs::Untyped;
    };
    if !entry.is_named || !stands_around(around, entry.outer) {
        return NamedAs::Untyped;
    }
    NamedAs::Procedure(NamedProcedure {
        callee: Callee::OfBlock { block },
        parameters: &entry.parameters,
        returned: entry.returned,
        area: area_under(around, meanings, entry.area),
    })
}

/// Where a member stands; none of a variable of its own.
fn offset_if(is_member: bool, offset: u32) -> Option<u32>
    ensures { result ≡ offset_if is_member offset }
{
    if is_member { Some(offset) } else { None }
}

/// Where an area begins, if a variable of its own of this description begins there and is one.
#[tactic(auto, using(crate::proofs::StorageIs::begun_again))]
fn described_area(begins: Option<Beginning>, whole: &Description) -> Option<Beginning>
    ensures { result ≡ area_from false (types.Stated (description_view whole.now)) (option_map root_at begins) }
{
    match whole {
        Description::Area(_) => begins,
        _ => None,
    }
}

/// The same of what is of this type.
fn area_of_type(begins: Option<Beginning>, whole: &ParameterType) -> Option<Beginning>
    ensures { result ≡ area_from false (type_view whole.now) (option_map root_at begins) }
{
    match whole {
        ParameterType::Stated(description) => described_area(begins, description),
        _ => None,
    }
}

/// Where an area begins, if what begins there is one: it is no member of a variable.
fn area_from(begins: Option<Beginning>, is_member: bool, whole: TypeRef<'_>) -> Option<Beginning>
    ensures { result ≡ area_from is_member (type_seen whole.entry) (option_map root_at begins) }
{
    if is_member {
        return None;
    }
    match whole {
        TypeRef::Stated(description) => described_area(begins, description),
        TypeRef::Open(taken) => area_of_type(begins, taken),
    }
}

/// A symbol of a block, where it is an area.
fn area_kept(around: &[usize], block: usize, meant: &SymbolMeaning<'_>) -> Option<Beginning>
    ensures { result ≡ area_kept (reverse around.now) block (meant_view meant.now) }
{
    match meant {
        SymbolMeaning::Variable {
            begins,
            whole,
            is_member,
            ..
        } => area_from(root_from(around, block, *begins), *is_member, *whole),
        _ => None,
    }
}

/// The area that is the symbol under a key, seen from here.
pub(crate) fn area_under(
    around: &[usize],
    meanings: &[Vec<SymbolMeaning<'_>>],
    area: Option<SymbolKey>,
) -> Option<Beginning>
    ensures { result ≡ area_under (map row_view meanings.now) (reverse around.now) area }
{
    let key = area?;
    let Some(row) = meanings.get(key.block) else {
        return None;
    };
    let Some(meant) = row.get(key.number) else {
        return None;
    };
    area_kept(around, key.block, meant)
}

/// A POINTER, or an OFFSET that names an area, which begins there.
fn if_locator(
    description: &Description,
    begins: Beginning,
    offset: Option<u32>,
    area: Option<Beginning>,
) -> Option<NamedLocator>
    ensures { option_map locator_view result
        ≡ if_locator (description_view description.now) (root_at begins) offset area }
{
    match description {
        Description::Pointer => Some(NamedLocator {
            begins,
            offset,
            area: None,
        }),
        Description::Offset => {
            let area = area?;
            Some(NamedLocator {
                begins,
                offset,
                area: Some(area),
            })
        }
        _ => None,
    }
}

/// A locator without dimensions that is this part of a variable, whose OFFSET names this area.
fn locator_from(
    begins: Option<Beginning>,
    is_member: bool,
    part: &Option<StridedPart<'_>>,
    area: Option<Beginning>,
) -> Option<NamedLocator>
    ensures { option_map locator_view result
        ≡ locator_from (option_map root_at begins) is_member (option_map part_view part.now) area }
{
    let begins = begins?;
    let Some(part) = part else {
        return None;
    };
    if !part.strides.is_empty() {
        return None;
    }
    if_locator(
        part.description,
        begins,
        offset_if(is_member, part.offset),
        area,
    )
}

/// A symbol of a block, where it is a locator.
fn locator_kept(
    around: &[usize],
    meanings: &[Vec<SymbolMeaning<'_>>],
    block: usize,
    meant: &SymbolMeaning<'_>,
) -> Option<NamedLocator>
    ensures { option_map locator_view result
        ≡ locator_kept (map row_view meanings.now) (reverse around.now) block (meant_view meant.now) }
{
    match meant {
        SymbolMeaning::Variable {
            begins,
            is_member,
            part,
            area,
            ..
        } => {
            let area = area_under(around, meanings, *area);
            locator_from(root_from(around, block, *begins), *is_member, part, area)
        }
        _ => None,
    }
}

/// The symbol under a key, where it is a locator.
fn locator_under(
    around: &[usize],
    meanings: &[Vec<SymbolMeaning<'_>>],
    locator: Option<SymbolKey>,
) -> Option<NamedLocator>
    ensures { option_map locator_view result ≡ locator_under (map row_view meanings.now) (reverse around.now) locator }
{
    let key = locator?;
    let Some(row) = meanings.get(key.block) else {
        return None;
    };
    let Some(meant) = row.get(key.number) else {
        return None;
    };
    locator_kept(around, meanings, key.block, meant)
}

/// Storage that begins there, if it begins somewhere.
fn begun_storage(begins: Option<Beginning>, is_parameter: bool) -> Option<NamedStorage>
    ensures { option_map storage_view result
        ≡ option_map (λ root. Begins root is_parameter) (option_map root_at begins) }
{
    let begins = begins?;
    Some(NamedStorage::Begins {
        begins,
        is_parameter,
    })
}

/// The storage of a variable of a block, seen from here.
fn storage_from(
    around: &[usize],
    meanings: &[Vec<SymbolMeaning<'_>>],
    block: usize,
    begins: Location,
) -> Option<NamedStorage>
    ensures { option_map storage_view result ≡ storage_from (map row_view meanings.now)
        (reverse around.now) block begins }
{
    match begins {
        Location::Based { number, locator } => Some(NamedStorage::Based {
            block,
            number,
            implied: locator_under(around, meanings, locator),
        }),
        Location::Passed { .. } => begun_storage(root_from(around, block, begins), true),
        Location::InBlock { .. } | Location::BeforeProgram { .. } | Location::NewestOf { .. } => {
            begun_storage(root_from(around, block, begins), false)
        }
    }
}

/// What a symbol of a block means here.
fn meant_seen<'n, 'a>(
    around: &[usize],
    entries: &'n [BlockEntry<'a>],
    meanings: &'n [Vec<SymbolMeaning<'a>>],
    block: usize,
    meant: &'n SymbolMeaning<'a>,
) -> NamedAs<'n, 'a>
    ensures { answer_view result ≡ kept_seen (map row_view meanings.now) (reverse around.now)
        (map entry_view entries.now) block (meant_view meant.now) }
{
    match meant {
        SymbolMeaning::Variable {
            begins,
            whole,
            is_member,
            part,
            area,
        } => {
            let Some(storage) = storage_from(around, meanings, block, *begins) else {
                return NamedAs::Untyped;
            };
            NamedAs::Variable(NamedVariable {
                storage,
                whole: *whole,
                is_member: *is_member,
                part,
                area: area_under(around, meanings, *area),
            })
        }
        SymbolMeaning::Procedure(procedure) => {
            procedure_seen(around, entries, meanings, *procedure)
        }
        SymbolMeaning::Entry {
            number,
            parameters,
            returned,
            area,
        } => NamedAs::Procedure(NamedProcedure {
            callee: Callee::OfEntry { number: *number },
            parameters,
            returned: *returned,
            area: area_under(around, meanings, *area),
        }),
        SymbolMeaning::Label(statement) => NamedAs::Label(*statement),
        SymbolMeaning::Untyped => NamedAs::Untyped,
    }
}

/// What the symbol under a key means here; nothing that has a type where there is none.
pub(crate) fn symbol_seen<'n, 'a>(
    around: &[usize],
    entries: &'n [BlockEntry<'a>],
    meanings: &'n [Vec<SymbolMeaning<'a>>],
    key: SymbolKey,
) -> NamedAs<'n, 'a>
    ensures { answer_view result ≡ kept_seen (map row_view meanings.now) (reverse around.now)
        (map entry_view entries.now) key.block
        (get_or (get_or (map row_view meanings.now) key.block []) key.number KeptNothing) }
{
    let Some(row) = meanings.get(key.block) else {
        return NamedAs::Untyped;
    };
    let Some(meant) = row.get(key.number) else {
        return NamedAs::Untyped;
    };
    meant_seen(around, entries, meanings, key.block, meant)
}
