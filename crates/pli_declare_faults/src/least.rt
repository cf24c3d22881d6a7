//! The least of codes.
ghost use Rattle.std.specs.Prelude.{◌≡◌, ◌∷◌, []};
ghost use Rattle.pli_declare.specs.Faults.{first_of};
ghost use Rattle.pli_declare.specs.Resolution as spec;

use pli_base::Code;
use pli_declare_attributes::lesser;

/// A code, where its fault is there.
pub(crate) fn code_if(is_fault: bool, code: Code) -> Option<Code>
    ensures { result ≡ first_of ((is_fault, code) ∷ []) }
{
    if is_fault { Some(code) } else { None }
}

/// The least of codes.
pub(crate) fn least(codes: &[Option<Code>]) -> Option<Code>
    ensures { result ≡ spec.least codes.now }
{
    let mut least = None;
    for code in codes {
        least = lesser(least, *code);
    }
    least
}
