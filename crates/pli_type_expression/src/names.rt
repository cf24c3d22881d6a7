//! The limit of numbers where names are used.
ghost use Rattle.std.specs.Prelude.{◌≡◌, ◌≤◌};
ghost use Rattle.pli_type_names.specs.UnitNaming.{naming_in};

use pli_type_names::Naming;

/// How many binary digits numbers have at most: 63.
#[tactic(auto, unfolding(pli_type_names::specs::UnitNaming::naming_in))]
pub(crate) fn greatest(naming: &Naming<'_>) -> u8
    ensures value { result ≡ (naming_in naming.now).greatest }
    ensures few { result ≤ 63 }
{
    naming.greatest()
}
