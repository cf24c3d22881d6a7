//! Templates of all units, of equal ones one.
ghost use Rattle.std.specs.Prelude.{◌≡◌, IfOk, option_map};
ghost use Rattle.pli_link.specs.answers.Classes as spec;
ghost use Rattle.pli_type_keys.specs.views.KeyView.{templated};
ghost use Rattle.pli_code.specs.views.CodeView.{code_view, global_view};

use crate::alike::template_at;
use crate::global_fault::GlobalFault;
use indexmap::IndexSet;
use pli_code::{Code, CodedGlobal};
use pli_type_keys::TemplateKey;
use std::alloc::AllocError;

/// The class of a template: its number among those that are known, which it joins if it is new.
pub(crate) fn class_of<'a>(
    known: &mut IndexSet<TemplateKey<'a>>,
    template: Option<TemplateKey<'a>>,
) -> Result<Option<usize>, AllocError>
    ensures class { IfOk result (λ class. spec.IsClass (spec.known_in known.new.keys)
        (option_map templated template.entry) class) }
    ensures grows { spec.Grows known.old.keys known.new.keys }
{
    let Some(template) = template else {
        return Ok(None);
    };
    match known.insert_full(template) {
        Ok((number, _)) => Ok(Some(number)),
        Err(_) => Err(AllocError),
    }
}

/// The class of the template of an external variable, where a mismatch is looked for; nothing else needs one.
pub(crate) fn class_for<'a>(
    known: &mut IndexSet<TemplateKey<'a>>,
    fault: GlobalFault,
    code: &'a Code,
    global: &CodedGlobal,
) -> Result<Option<usize>, AllocError>
    ensures class { IfOk result (spec.IsClassFor fault (spec.known_in known.new.keys) (code_view code.now)
        (global_view global.now)) }
    ensures grows { spec.Grows known.old.keys known.new.keys }
{
    match (fault, global) {
        (GlobalFault::Mismatch, CodedGlobal::ExternalVariable { template, .. }) => {
            class_of(known, template_at(code, *template))
        }
        _ => Ok(None),
    }
}
