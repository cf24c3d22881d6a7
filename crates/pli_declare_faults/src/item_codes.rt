//! The least code of each name of a block.
ghost use Rattle.std.specs.Prelude.{◌≡◌, ◌+◌, ◌<◌, length, map, get_or, IfOk};
ghost use Rattle.pli_declare_outline.specs.views.OutlineView.{outline_view};
ghost use Rattle.pli_declare_scopes.specs.declared.repeat.Verdict.TheVariants as judgments;
ghost use Rattle.pli_declare.specs.Tables.{no_entry, entries_in, numbers_from};
ghost use Rattle.pli_declare_tables.specs.views.TableView.{entity_view};
ghost use Rattle.pli_declare.specs.Resolution.{least as least_of, entity_codes, item_code, twice_code};
ghost use Rattle.pli_declare_faults.specs.answers.Walks.{entity_is_good, block_goodness};

use crate::heading::heading_code;
use crate::known::Known;
use crate::least::{code_if, least};
use pli_base::Code;
use pli_declare_attributes::lesser;
use pli_declare_scopes::Verdict;
use pli_declare_tables::Entity;
use pli_declare_variables::Judged;
use std::alloc::{AllocError, Global};

/// The code of a name that is declared twice; a name of which nothing is judged counts.
fn told_twice(verdicts: &[Verdict], number: usize) -> Option<Code>
    ensures { result ≡ twice_code (get_or verdicts.now number judgments.Counts) }
{
    match verdicts.get(number) {
        Some(Verdict::Twice) => Some(Code::DeclaredTwice),
        _ => None,
    }
}

impl Known<'_> {
    /// The least code of what a name is declared as, apart from A2.
    #[tactic(auto, using(crate::proofs::HeadingLemmas::lesser_none))]
    fn entity_code(
        &self,
        block: usize,
        judged: Judged,
        entity: Entity,
        is_good: bool,
    ) -> Option<Code>
        requires { is_good ≡ entity_is_good (outline_view self.now.scopes.outline.now) block (entity_view entity) }
        ensures { result ≡ least_of (entity_codes (outline_view self.now.scopes.outline.now) block judged.code
            judged.is_too_large (entity_view entity.entry)) }
    {
        match entity {
            Entity::Item {
                facts: _,
                is_bad_level,
            } => least(&[
                judged.code,
                code_if(is_bad_level, Code::BadLevel),
                code_if(!is_good, Code::BadLocatorOrAreaName),
                code_if(judged.is_too_large, Code::GenerationTooLarge),
            ]),
            Entity::Label { .. } => None,
            Entity::Procedure { procedure, .. } => heading_code(is_good, procedure),
        }
    }

    /// The least code of the name of this number in a block, where the names in its attributes are known to be good or
    /// not.
    fn item_code(&self, block: usize, number: usize, is_good: bool) -> Option<Code>
        requires block { block < length self.now.scopes.outline.now.regions.items + 1 }
        requires number { number < length (entries_in (outline_view self.now.scopes.outline.now) block) }
        requires good { let o = outline_view self.now.scopes.outline.now in
            is_good ≡ entity_is_good o block (get_or (entries_in o block) number no_entry).entity }
        ensures { result ≡ item_code (outline_view self.now.scopes.outline.now) block number }
    {
        let table = self.table(block);
        let entity = table.entries[number].entity;
        let code = self.entity_code(block, self.judged(block, number), entity, is_good);
        lesser(told_twice(&table.verdicts, number), code)
    }

    /// The least code of each name of a block, where it is known of each whether the names in its attributes are good.
    #[tactic(auto, using(pli_declare::proofs::ListsByNumber::made_more))]
    pub(crate) fn codes_of_block(
        &self,
        alloc: Global,
        block: usize,
        good: &[bool],
    ) -> Result<Vec<Option<Code>>, AllocError>
        requires block { block < length self.now.scopes.outline.now.regions.items + 1 }
        requires good { good.now ≡ block_goodness (outline_view self.now.scopes.outline.now) block }
        ensures { IfOk result (λ codes. codes.items
            ≡ map (item_code (outline_view self.now.scopes.outline.now) block)
            (numbers_from 0 (length (entries_in (outline_view self.now.scopes.outline.now) block)))) }
    {
        let count = self.table(block).entries.len();
        let mut codes = Vec::with_capacity(alloc, count)?;
        for number in 0..count {
            codes.push(self.item_code(block, number, good[number]))?;
        }
        Ok(codes)
    }
}
