//! What is found once for each block.
ghost use Rattle.std.specs.Prelude.{◌≡◌, get_or, map, option_map, slice_get};
ghost use Rattle.pli_declare_outline.specs.views.OutlineView.{starts_view};
ghost use Rattle.pli_declare.specs.views.DeclarationView.{declaration_view};
ghost use Rattle.pli_declare.specs.Symbols as spec;
ghost use Rattle.pli_resolve.specs.views.TableView.{way_view, block_table_view, parameters_in, ways_in};

use crate::ways::Way;
use pli_base::Name;
use pli_declare::Declaration;
use pli_declare_outline::Region;

/// What is found once for what a region declares.
#[derive(Drop)]
pub struct BlockTable {
    pub ways: Vec<Way>,
    /// The numbers of its parameters, each under its slot.
    pub parameters: Vec<usize>,
}

/// The place of a name in a list, or its length.
pub(crate) fn place_among(names: &[Name], name: Name) -> usize
    ensures { result ≡ spec.place_among names.now name }
{
    for (place, one) in names.iter().enumerate() {
        if *one == name {
            return place;
        }
    }
    names.len()
}

/// The numbers of the parameters of a region.
pub(crate) fn parameters_at(tables: &[BlockTable], region: usize) -> &[usize]
    ensures { result.now ≡ parameters_in (slice_get (map block_table_view tables.now) region) }
{
    match tables.get(region) {
        Some(table) => table.parameters.as_slice(),
        None => &[],
    }
}

/// The statement with which the region of this number begins; 0 where there is none.
pub(crate) fn start_at(regions: &[Region], region: usize) -> u32
    ensures { result ≡ get_or (starts_view regions.now) region 0 }
{
    match regions.get(region) {
        Some(region) => region.statement,
        None => 0,
    }
}

/// The ways of the names that a region declares.
pub(crate) fn ways_at(tables: &[BlockTable], region: usize) -> &[Way]
    ensures { map way_view result.now ≡ ways_in (slice_get (map block_table_view tables.now) region) }
{
    match tables.get(region) {
        Some(table) => table.ways.as_slice(),
        None => &[],
    }
}

/// The way of this number.
pub(crate) fn way_at(ways: &[Way], number: usize) -> Option<&Way>
    ensures { option_map (λ w. way_view w.now) result ≡ slice_get (map way_view ways.now) number }
{
    ways.get(number)
}

/// The declaration of this number.
pub(crate) fn declaration_at<'s>(
    declarations: &'s [Declaration<'s>],
    number: usize,
) -> Option<&'s Declaration<'s>>
    ensures { option_map (λ d. declaration_view d.now) result
        ≡ slice_get (map declaration_view declarations.now) number }
{
    declarations.get(number)
}
