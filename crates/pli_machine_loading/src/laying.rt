//! The bytes of templates, laid before a run.
ghost use Rattle.std.specs.Prelude.{◌≡◌, Some, IfOk, IfSome};
ghost use Rattle.pli_type_tree.specs.Templates.{Template};
ghost use Rattle.pli_code.specs.CodeTables.{template_at};
ghost use Rattle.pli_code.specs.views.CodeView.{code_view};
ghost use Rattle.pli_machine_activations.specs.answers.LaidTemplates.{AreLaid, UnitsLaid};
ghost use Rattle.pli_stacks.specs.answers.LaidBytes.{IsLaid};

use pli_code::{Code, Module};
use pli_machine_activations::template_of;
use pli_map::far_size;
use pli_stacks::initial_bytes;
use std::alloc::{AllocError, Global};

/// How many bytes are laid for a template at most (own).
const TEMPLATE_BYTES: usize = 4096;

/// How many bytes are laid for a module at most (own).
const MODULE_BYTES: usize = 1_048_576;

/// The bytes with which variables of the template of a number begin, where it takes no more than so many bytes and than
/// may be laid for one.
fn lay_template(
    alloc: Global,
    code: &Code,
    number: u16,
    left: usize,
) -> Result<Option<Vec<u8>>, AllocError>
    ensures { IfOk result (λ laid. (t : Template) → template_at (code_view code.now) number ≡ Some t →
        IfSome laid (λ bytes. IsLaid t bytes.items)) }
{
    match template_of(code, number) {
        Some((description, scalars)) => {
            if far_size(description) > left.min(TEMPLATE_BYTES) as u64 {
                return Ok(None);
            }
            let bytes = initial_bytes(alloc, description, scalars)?;
            Ok(Some(bytes))
        }
        None => Ok(None),
    }
}

/// The same of each template of a unit, by its number.
fn lay_unit(
    alloc: Global,
    code: &Code,
    left: &mut usize,
) -> Result<Vec<Option<Vec<u8>>>, AllocError>
    ensures { IfOk result (λ laid. AreLaid (code_view code.now) laid.items) }
{
    let count = code.templates.len().min(usize::from(u16::MAX)) as u16;
    let mut laid = Vec::new(alloc);
    for number in 0..count {
        let bytes = lay_template(alloc, code, number, *left)?;
        if let Some(bytes) = &bytes {
            *left = left.saturating_sub(bytes.len());
        }
        laid.push(bytes)?;
    }
    Ok(laid)
}

/// The same of each unit of a module.
pub fn lay_units(alloc: Global, module: &Module) -> Result<Vec<Vec<Option<Vec<u8>>>>, AllocError>
    ensures { IfOk result (λ laid. UnitsLaid «module».now.units.items laid.items) }
{
    let mut left = MODULE_BYTES;
    let mut laid = Vec::new(alloc);
    for unit in &module.units {
        let table = lay_unit(alloc, &unit.deck.code, &mut left)?;
        laid.push(table)?;
    }
    Ok(laid)
}
