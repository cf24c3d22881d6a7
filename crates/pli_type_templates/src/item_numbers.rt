//! Which item of DECLARE each declared name is of, by the token of the name.
ghost use Rattle.std.specs.Prelude.{◌≡◌, ◌≤◌, ℕ, nat_eq, None, true, OnOk, IfOk, length, map};
ghost use Rattle.indexmap.specs.IndexMap.{get};
ghost use Rattle.pli_base.specs.Declarations as tree;
ghost use Rattle.pli_base.specs.views.DeclarationView.{item_view};
ghost use Rattle.pli_base.specs.views.StatementView.{unit_view};
ghost use Rattle.pli_declare_outline.specs.Outlines.{outline_of};
ghost use Rattle.pli_declare_outline.specs.views.OutlineView.{mark_view, marks_view, outline_view};
ghost use Rattle.pli_type_templates.specs.ItemNames.{HasFewMarks, HasFewRegions, IsNameOf, items_of};
ghost use Rattle.pli_type_templates.specs.NotedNames.{AreOfOne, IsNoted, IsOnly, KeepNotes, NoteItems, NoteMarks};
ghost use Rattle.pli_type_templates.specs.NotedNames.{NoteNames, TellItems};
ghost use Rattle.pli_type_templates.specs.declared.item_number.ItemNumber.{ItemNumber};

use crate::item_number::{ItemNumber, is_same_item, noted_with};
use indexmap::IndexMap;
use pli_base::declaration::Item;
use pli_base::statement::Procedure;
use pli_base::syntax::Identifier;
use pli_declare_outline::{Mark, Outline, PlacedMark};
use std::alloc::{AllocError, Global};

/// The items of the names of a unit.
#[derive(Drop)]
pub(crate) struct ItemNumbers<'a> {
    pub unit: &'a Procedure,
    /// Under the token of each name in a DECLARE its item; none under one of names of several items, of which a text
    /// has none.
    numbers: IndexMap<u32, Option<ItemNumber>>,
    ghost tell: { TellItems (get nat_eq numbers) (outline_of (unit_view unit.now)).marks },
}

/// Notes a name of an item.
fn note_name(
    numbers: &mut IndexMap<u32, Option<ItemNumber>>,
    at: u32,
    number: ItemNumber,
) -> Result<(), AllocError>
    ensures here { OnOk result (IsNoted (get nat_eq numbers.new at) number) }
    ensures kept { OnOk result (KeepNotes (get nat_eq numbers.old) (get nat_eq numbers.new)) }
{
    let before = numbers.get(&at).copied();
    let noted = noted_with(before, number);
    numbers.insert(at, noted)?;
    Ok(())
}

/// Notes the names of an item.
fn note_names(
    numbers: &mut IndexMap<u32, Option<ItemNumber>>,
    names: &[Identifier],
    number: ItemNumber,
) -> Result<(), AllocError>
    ensures here { OnOk result (NoteNames (get nat_eq numbers.new) names.now number) }
    ensures kept { OnOk result (KeepNotes (get nat_eq numbers.old) (get nat_eq numbers.new)) }
{
    for name in names {
        note_name(numbers, name.at, number)?;
    }
    Ok(())
}

/// Notes the names of items that the mark of this number declares.
fn note_items(
    numbers: &mut IndexMap<u32, Option<ItemNumber>>,
    mark: usize,
    items: &[Item],
) -> Result<(), AllocError>
    ensures here { OnOk result (NoteItems (get nat_eq numbers.new) mark (map item_view items.now)) }
    ensures kept { OnOk result (KeepNotes (get nat_eq numbers.old) (get nat_eq numbers.new)) }
{
    for item in 0..items.len() {
        let names = items[item].names.as_slice();
        note_names(numbers, names, ItemNumber { mark, item })?;
    }
    Ok(())
}

/// Notes the names of the items that the mark of this number declares, if any.
fn note_mark(
    numbers: &mut IndexMap<u32, Option<ItemNumber>>,
    number: usize,
    mark: &Mark<'_>,
) -> Result<(), AllocError>
    ensures here { OnOk result (NoteItems (get nat_eq numbers.new) number (items_of (mark_view mark.now))) }
    ensures kept { OnOk result (KeepNotes (get nat_eq numbers.old) (get nat_eq numbers.new)) }
{
    match mark {
        Mark::Declared(items) => note_items(numbers, number, items),
        Mark::Labelled(_) | Mark::Entered { .. } | Mark::Used(_) | Mark::Jumped(_) => Ok(()),
    }
}

/// Notes the names of the items of marks.
fn note_marks(
    alloc: Global,
    marks: &[PlacedMark<'_>],
) -> Result<IndexMap<u32, Option<ItemNumber>>, AllocError>
    ensures { IfOk result (λ numbers. NoteMarks (get nat_eq numbers) (marks_view marks.now)) }
{
    let mut numbers = IndexMap::new(alloc);
    for number in 0..marks.len() {
        note_mark(&mut numbers, number, &marks[number].mark)?;
    }
    Ok(numbers)
}

/// A look at an outline. Its regions and marks are no more than vectors hold.
fn look_at(outline: &Outline<'_>)
    ensures regions { length outline.now.regions.items ≤ 1152921504606846976 }
    ensures marks { length outline.now.marks.items ≤ 1152921504606846976 }
{
    let _regions = outline.regions.as_slice();
    let _marks = outline.marks.as_slice();
}

/// No notes.
fn no_notes(alloc: Global) -> IndexMap<u32, Option<ItemNumber>>
    ensures { (at : ℕ) → get nat_eq result at ≡ None }
{
    IndexMap::new(alloc)
}

impl<'a> ItemNumbers<'a> {
    /// The items of the names of a unit, none of which is known.
    fn unknown(alloc: Global, unit: &'a Procedure) -> ItemNumbers<'a>
        ensures { result.unit.now ≡ unit.now }
    {
        let numbers = no_notes(alloc);
        ItemNumbers { unit, numbers }
    }

    /// The items of the names of a unit of this outline, where they are asked for; else none is known. Takes time for
    /// its marks then.
    pub(crate) fn of(
        alloc: Global,
        unit: &'a Procedure,
        outline: &Outline<'_>,
        are_asked_for: bool,
    ) -> Result<ItemNumbers<'a>, AllocError>
        requires { outline_view outline.now ≡ outline_of (unit_view unit.now) }
        ensures unit { IfOk result (λ made. made.unit.now ≡ unit.now) }
        ensures regions { IfOk result (λ _. HasFewRegions (unit_view unit.now)) }
        ensures marks { IfOk result (λ _. HasFewMarks (unit_view unit.now)) }
    {
        look_at(outline);
        if !are_asked_for {
            return Ok(ItemNumbers::unknown(alloc, unit));
        }
        let numbers = note_marks(alloc, &outline.marks)?;
        Ok(ItemNumbers { unit, numbers })
    }

    /// The item of all names at a token; none where it is not known.
    fn item_of(&self, at: u32) -> Option<ItemNumber>
        ensures { (number : ItemNumber) (item : tree.Item) →
            IsNameOf (outline_of (unit_view self.now.unit.now)).marks at number item
            → IsOnly result number }
    {
        self.numbers.get(&at).copied().flatten()
    }

    /// Whether the names at two tokens are of one item, and that is known.
    pub(crate) fn are_of_one(&self, left: u32, right: u32) -> bool
        ensures { result ≡ true → AreOfOne (outline_of (unit_view self.now.unit.now)).marks left right }
    {
        match (self.item_of(left), self.item_of(right)) {
            (Some(left), Some(right)) => is_same_item(left, right),
            _ => false,
        }
    }
}
