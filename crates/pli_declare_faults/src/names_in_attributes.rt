//! For each declared name whether the names of locators and areas in its attributes are good, and what they mean:
//! looked up once for an item, whatever number of names it has.
ghost use Rattle.std.specs.Prelude.{◌≡◌, ◌<◌, ℕ, ◌++◌, List, [], length, map, get_or, slice_set, IfOk, OnOk};
ghost use Rattle.std.specs.List.{flat_map};
ghost use Rattle.pli_base.specs.Name.{Name};
ghost use Rattle.pli_base.specs.views.DeclarationView.{item_view};
ghost use Rattle.pli_declare_outline.specs.Outlines.{Outline as Outlined};
ghost use Rattle.pli_declare_outline.specs.views.OutlineView.{outline_view, mark_view};
ghost use Rattle.pli_declare.specs.Tables.{inner_marks};
ghost use Rattle.pli_declare.specs.AttributeNames.{area_in, locator_in};
ghost use Rattle.pli_declare.specs.Resolved.{areas_at, locators_at, item_names, named_at, of_marks};
ghost use Rattle.pli_declare_faults.specs.answers.Meeting.{IsFirst, first_target};
ghost use Rattle.pli_declare_faults.specs.answers.Targets.{target_uses};
ghost use Rattle.pli_declare_faults.specs.answers.Walks.{item_goodness, mark_goodness, AreGoodness};

use crate::known::Known;
use crate::lists::no_lists;
use crate::look_up::Looked;
use crate::marks::{block_of, marks_after};
use crate::uses::add_use;
use pli_base::declaration::Item;
use pli_base::syntax::Identifier;
use pli_declare::{Target, Use};
use pli_declare_outline::Mark;
use std::alloc::{AllocError, AllocFailed, Global};

/// The same answer for each of some names, after others.
fn append_answer(
    answers: &mut Vec<bool>,
    names: &[Identifier],
    is_good: bool,
) -> Result<(), AllocError>
    ensures { OnOk result (answers.new.items ≡ answers.old.items ++ map (λ i. is_good) names.now) }
{
    for _name in names {
        answers.push(is_good)?;
    }
    Ok(())
}

/// What the names mean that were met first, if they mean anything.
fn target_of(first: Option<Looked>) -> Option<Target>
    ensures { result ≡ first_target first }
{
    match first {
        Some(Looked::Found { block, number }) => Some(Target::Name { block, number }),
        Some(Looked::Ambiguous) | Some(Looked::NotDeclared) | None => None,
    }
}

/// The same meaning at each of some names, after other uses.
fn append_uses(
    uses: &mut Vec<Use>,
    names: &[Identifier],
    target: Option<Target>,
) -> Result<(), AllocError>
    ensures { OnOk result (uses.new.items ≡ uses.old.items ++ flat_map (λ i. target_uses i.at target) names.now) }
{
    for name in names {
        add_use(uses, name.at, target)?;
    }
    Ok(())
}

/// What the names mean that were met first, at each of the names that are declared with them.
fn append_first(
    uses: &mut Vec<Use>,
    declared: &[Identifier],
    first: Option<Looked>,
) -> Result<(), AllocError>
    ensures { OnOk result ((o : Outlined) (here : ℕ) (names : List Name) → IsFirst first o here names []
        → uses.new.items ≡ uses.old.items ++ flat_map (named_at o here names) declared.now) }
{
    append_uses(uses, declared, target_of(first))
}

impl Known<'_> {
    /// For each name of items whether the names in its attributes are good, and what they mean.
    fn append_items(
        &self,
        block: usize,
        items: &[Item],
        answers: &mut Vec<bool>,
        areas: &mut Vec<Use>,
        locators: &mut Vec<Use>,
    ) -> Result<(), AllocError>
        ensures answers { OnOk result (answers.new.items ≡ answers.old.items
            ++ flat_map (item_goodness (outline_view self.now.scopes.outline.now) block) (map item_view items.now)) }
        ensures areas { OnOk result (areas.new.items ≡ areas.old.items
            ++ flat_map (item_names (outline_view self.now.scopes.outline.now) block area_in)
            (map item_view items.now)) }
        ensures locators { OnOk result (locators.new.items ≡ locators.old.items
            ++ flat_map (item_names (outline_view self.now.scopes.outline.now) block locator_in)
            (map item_view items.now)) }
    {
        for item in items {
            let met = self.meet_attributes(block, item.attributes.as_slice());
            append_answer(answers, &item.names, met.are_good)?;
            append_first(areas, &item.names, met.area)?;
            append_first(locators, &item.names, met.locator)?;
        }
        Ok(())
    }

    /// The same of what a mark declares in a block.
    fn append_mark(
        &self,
        block: usize,
        mark: &Mark,
        answers: &mut Vec<bool>,
        areas: &mut Vec<Use>,
        locators: &mut Vec<Use>,
    ) -> Result<(), AllocError>
        ensures answers { OnOk result (answers.new.items ≡ answers.old.items
            ++ mark_goodness (outline_view self.now.scopes.outline.now) block (mark_view mark.now)) }
        ensures areas { OnOk result (areas.new.items ≡ areas.old.items
            ++ areas_at (outline_view self.now.scopes.outline.now) block (mark_view mark.now)) }
        ensures locators { OnOk result (locators.new.items ≡ locators.old.items
            ++ locators_at (outline_view self.now.scopes.outline.now) block (mark_view mark.now)) }
    {
        match mark {
            Mark::Declared(items) => self.append_items(block, items, answers, areas, locators)?,
            Mark::Labelled(_) => answers.push(true)?,
            Mark::Entered { procedure, .. } => {
                let met = self.meet_returned(block, procedure);
                answers.push(met.are_good)?;
                add_use(areas, procedure.name.at, target_of(met.area))?;
            }
            Mark::Used(_) | Mark::Jumped(_) => {}
        }
        Ok(())
    }

    /// The same in the list of the block. A block that is none has no list.
    fn append_at(
        &self,
        all: &mut Vec<Vec<bool>>,
        block: usize,
        mark: &Mark,
        areas: &mut Vec<Use>,
        locators: &mut Vec<Use>,
    ) -> Result<(), AllocError>
        requires { block < length all.old.items }
        ensures answers { OnOk result (
            let before = map (λ list. list.items) all.old.items in
            map (λ list. list.items) all.new.items
            ≡ slice_set before block (get_or before block []
            ++ mark_goodness (outline_view self.now.scopes.outline.now) block (mark_view mark.now))) }
        ensures areas { OnOk result (areas.new.items ≡ areas.old.items
            ++ areas_at (outline_view self.now.scopes.outline.now) block (mark_view mark.now)) }
        ensures locators { OnOk result (locators.new.items ≡ locators.old.items
            ++ locators_at (outline_view self.now.scopes.outline.now) block (mark_view mark.now)) }
    {
        self.append_mark(block, mark, &mut all[block], areas, locators)
    }

    /// For each name of each block whether the names of locators and areas in its attributes are good; and what the
    /// first area and the first locator mean, at each name, after others.
    pub(crate) fn names_in_attributes(
        &self,
        alloc: Global,
        areas: &mut Vec<Use>,
        locators: &mut Vec<Use>,
    ) -> Result<Vec<Vec<bool>>, AllocError>
        ensures good { IfOk result (λ all. AreGoodness (map (λ list. list.items) all.items)
            (outline_view self.now.scopes.outline.now)) }
        ensures areas { let o = outline_view self.now.scopes.outline.now in
            OnOk result (areas.new.items ≡ areas.old.items ++ of_marks (areas_at o) (inner_marks o.marks)) }
        ensures locators { let o = outline_view self.now.scopes.outline.now in
            OnOk result (locators.new.items ≡ locators.old.items ++ of_marks (locators_at o) (inner_marks o.marks)) }
    {
        let mut all = no_lists(alloc, self.scopes.outline.regions.len() + 1)?;
        let marks = marks_after(self.scopes.outline);
        for placed in marks {
            let block = block_of(self.scopes.outline, self.scopes.nesting, placed.region);
            self.append_at(&mut all, block, &placed.mark, areas, locators)?;
        }
        Ok(all)
    }
}
