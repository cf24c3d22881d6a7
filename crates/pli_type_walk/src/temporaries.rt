//! How many temporaries statements have.
ghost use Rattle.std.specs.Prelude.{◌≡◌, false, map};
ghost use Rattle.pli_base.specs.views.StatementView.{allocation_view, body_view};
ghost use Rattle.pli_type_rules.specs.Temporaries.{based_among, temporaries_of};
ghost use Rattle.pli_type_names.specs.UnitNaming.{based_in};
ghost use Rattle.pli_type_walk.specs.Compound.{is_compound};

use pli_base::statement::{Allocation, Body};
use pli_type_names::Naming;

/// How many items of ALLOCATE are of BASED variables.
#[tactic(auto, using(crate::proofs::BasedItems::one_counted, crate::proofs::BasedItems::none_counted, crate::proofs::BasedItems::all_counted))]
fn based_among(naming: &Naming<'_>, items: &[Allocation]) -> usize
    ensures { result ≡ based_among (based_in naming.now) (map allocation_view items.now) }
{
    let mut count = 0;
    for item in items {
        if naming.is_based(item.name.at) {
            count += 1;
        }
    }
    count
}

/// How many temporaries a statement without statements in it has: an ALLOCATE one for each BASED variable.
pub fn kept_in(naming: &Naming<'_>, body: &Body) -> usize
    requires { is_compound (body_view body.now) ≡ false }
    ensures { result ≡ temporaries_of (based_in naming.now) (body_view body.now) }
{
    match body {
        Body::Allocate(items) => based_among(naming, items.as_slice()),
        _ => 0,
    }
}
