//! The faults of GOTO.
ghost use Rattle.std.specs.Prelude.{◌≡◌};
ghost use Rattle.pli_declare_outline.specs.views.OutlineView.{outline_view, regions_view};
ghost use Rattle.pli_declare_tables.specs.views.TableView.{entity_view};
ghost use Rattle.pli_declare.specs.Resolution.{target_code};

use pli_base::Code;
use pli_declare_constructs::Nesting;
use pli_declare_outline::Outline;
use pli_declare_tables::Entity;

/// The code of a GOTO in a region to what a name is declared as.
pub(crate) fn target_code(
    outline: &Outline,
    nesting: &Nesting,
    here: usize,
    target: Entity,
) -> Option<Code>
    requires nested { nesting.now ≡ regions_view outline.now.regions.items }
    ensures { result ≡ target_code (outline_view outline.now) here (entity_view target.entry) }
{
    match target {
        Entity::Label { region } if nesting.reaches(here, region) => None,
        Entity::Label { .. } | Entity::Item { .. } | Entity::Procedure { .. } => {
            Some(Code::BadGoto)
        }
    }
}
