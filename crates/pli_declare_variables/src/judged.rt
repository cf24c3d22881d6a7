//! What is known of the items of a block.
ghost use Rattle.std.specs.Prelude.{◌≡◌, IfOk};
ghost use Rattle.pli_declare_tables.specs.views.TableView.{entries_view};
ghost use Rattle.pli_declare.specs.answers.Owners.{AreAfterOwners};
ghost use Rattle.pli_declare_variables.specs.Judging.{all_judged};

use crate::codes::own_codes;
use crate::locators::nameables;
use crate::places::places;
use crate::sizes::too_large;
use pli_base::{Code, Name};
use pli_declare::ItemPlace;
use pli_declare_tables::Entry;
use std::alloc::{AllocError, Global};

/// What is known of a declared name, apart from the names that its attributes have in parentheses.
#[derive(Clone, Copy)]
pub struct Judged {
    /// Where it stands, its elements above counted up to a limit.
    pub place: ItemPlace,
    /// The least of A3 to A7, A9, A13 to A15, but for the size of the whole variable.
    pub code: Option<Code>,
    /// Whether it is a variable over 1,000,000 bytes.
    pub is_too_large: bool,
    /// Whether BASED may name it.
    pub is_locator: bool,
    /// Whether OFFSET may name it.
    pub is_area: bool,
}

/// What is known of each name of a block, where the parameters are those of the procedure that is the block.
pub fn judge(
    alloc: Global,
    entries: &[Entry],
    parameters: &[Name],
) -> Result<Vec<Judged>, AllocError>
    requires { AreAfterOwners (entries_view entries.now) }
    ensures { IfOk result (λ judged. judged.items ≡ all_judged (entries_view entries.now) parameters.now) }
{
    let places = places(alloc, entries, parameters)?;
    let codes = own_codes(alloc, entries, &places)?;
    let large = too_large(alloc, entries, codes.as_slice())?;
    let named = nameables(alloc, entries)?;
    let mut judged = Vec::with_capacity(alloc, entries.len())?;
    for number in 0..entries.len() {
        let place = places[number];
        let code = codes[number];
        let is_too_large = large[number];
        let nameable = named[number];
        judged.push(Judged {
            place,
            code,
            is_too_large,
            is_locator: nameable.is_locator,
            is_area: nameable.is_area,
        })?;
    }
    Ok(judged)
}
