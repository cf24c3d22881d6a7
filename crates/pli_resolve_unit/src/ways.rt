//! How members stand in their variables.
ghost use Rattle.std.specs.Prelude.{◌≡◌, ℕ, ◌+◌, ◌≤◌, length, map, get_or, IfOk};
ghost use Rattle.pli_declare.specs.views.DeclarationView.{declaration_view};
ghost use Rattle.pli_declare.specs.Symbols as spec;
ghost use Rattle.pli_resolve.specs.views.TableView.{way_view};

use pli_declare::Declaration;
use pli_resolve::Way;
use std::alloc::{AllocError, Global};

/// The way of one more name, by those of the names before it and how many members each of these has so far.
fn way_with(
    alloc: Global,
    ways: &[Way],
    counts: &[usize],
    owner: Option<usize>,
) -> Result<Way, AllocError>
    ensures { IfOk result (λ way. way_view way ≡ spec.way_with (map way_view ways.now) counts.now owner) }
{
    let Some(owner) = owner else {
        return Ok(Way {
            root: ways.len(),
            path: Vec::new(alloc),
        });
    };
    let place = counts.get(owner).copied().unwrap_or(0);
    let Some(above) = ways.get(owner) else {
        let mut path = Vec::new(alloc);
        path.push(place)?;
        return Ok(Way { root: 0, path });
    };
    let mut path = Vec::with_capacity(alloc, above.path.len() + 1)?;
    path.extend_from_slice(&above.path)?;
    path.push(place)?;
    Ok(Way {
        root: above.root,
        path,
    })
}

/// Counts one more member of its owner.
fn count_member(counts: &mut Vec<usize>, owner: Option<usize>)
    requires { (k : ℕ) → get_or counts.now.items k 0 ≤ length counts.now.items }
    ensures { counts.new.items ≡ spec.counted counts.old.items owner }
{
    if let Some(owner) = owner {
        if owner < counts.len() {
            counts[owner] += 1;
        }
    }
}

/// The ways of the names of a block.
pub(crate) fn ways(alloc: Global, declarations: &[Declaration]) -> Result<Vec<Way>, AllocError>
    ensures { IfOk result (λ ways. map way_view ways.items ≡ spec.ways_of (map declaration_view declarations.now)) }
{
    let mut ways = Vec::with_capacity(alloc, declarations.len())?;
    let mut counts = Vec::with_capacity(alloc, declarations.len())?;
    for declaration in declarations {
        let way = way_with(alloc, &ways, &counts, declaration.owner)?;
        count_member(&mut counts, declaration.owner);
        counts.push(0)?;
        ways.push(way)?;
    }
    Ok(ways)
}
