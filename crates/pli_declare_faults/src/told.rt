//! Faults at tokens.
ghost use Rattle.std.specs.Prelude.{◌≡◌, ◌++◌, OnOk};
ghost use Rattle.pli_declare.specs.Resolution.{at_token};

use pli_base::{Code, Fault};
use std::alloc::AllocError;

/// A code at its token, if there is one, after other faults.
pub(crate) fn tell(faults: &mut Vec<Fault>, at: u32, code: Option<Code>) -> Result<(), AllocError>
    ensures { OnOk result (faults.new.items ≡ faults.old.items ++ at_token at code) }
{
    if let Some(code) = code {
        faults.push(Fault { code, at })?;
    }
    Ok(())
}
