//! Descriptions by their numbers.
ghost use Rattle.std.specs.Prelude.{◌≡◌, ◌<◌, length, IfOk, IfSome};
ghost use Rattle.pli_area_blocks.specs.answers.Known.{IsGrown};
ghost use Rattle.pli_area_blocks.specs.views.BlocksView.{described, wholes};
ghost use Rattle.pli_map.specs.views.DescriptionView.{description_view};

use pli_map::Description;
use std::alloc::AllocError;

/// Where a description stands among these; `None` where none is equal to it. Takes time linear in these.
fn index_of(descriptions: &[&Description], description: &Description) -> Option<usize>
    ensures there { IfSome result (λ number. number < length descriptions.now) }
    ensures described { IfSome result (λ number. described (wholes descriptions.now) number
        ≡ description_view description.now) }
{
    for number in 0..descriptions.len() {
        if descriptions[number].is_same(description) {
            return Some(number);
        }
    }
    None
}

/// The number of a description among these, which have it after the others if none of them is equal to it.
pub(crate) fn number_in<'m>(
    descriptions: &mut Vec<&'m Description>,
    description: &'m Description,
) -> Result<u32, AllocError>
    ensures grown { IsGrown (wholes descriptions.old.items) (wholes descriptions.new.items) }
    ensures there { IfOk result (λ number. number < length descriptions.new.items) }
    ensures described { IfOk result (λ number. described (wholes descriptions.new.items) number
        ≡ description_view description.now) }
{
    if let Some(number) = index_of(descriptions, description) {
        return u32::try_from(number).map_err(|_error| AllocError);
    }
    let number = u32::try_from(descriptions.len()).map_err(|_error| AllocError)?;
    descriptions.push(description)?;
    Ok(number)
}
