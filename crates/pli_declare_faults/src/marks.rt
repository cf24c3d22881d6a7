//! The faults of the marks of a unit, one after another, and what the names mean that they use.
ghost use Rattle.std.specs.Prelude.{◌≡◌, ◌+◌, ◌≤◌, ◌++◌, [], map, length, IfOk, OnOk};
ghost use Rattle.std.specs.List.{flat_map};
ghost use Rattle.pli_base.specs.views.DeclarationView.{item_view};
ghost use Rattle.pli_declare_outline.specs.Outlines.{Used, Jumped};
ghost use Rattle.pli_declare_outline.specs.views.OutlineView.{mark_view, marks_view, regions_view, outline_view};
ghost use Rattle.pli_declare_constructs.specs.Regions.{block_of};
ghost use Rattle.pli_declare.specs.Tables.{inner_marks};
ghost use Rattle.pli_declare.specs.Resolution.{parameter_faults, used_faults, faults_after};
ghost use Rattle.pli_declare.specs.DeclaredNames.{declared_names};
ghost use Rattle.pli_declare.specs.Resolved.{of_marks, uses_at};
ghost use Rattle.pli_declare_faults.specs.answers.Walks.{AreCodes, name_faults};

use crate::parameters::tell_parameters;
use crate::scopes::Scopes;
use crate::told::tell;
use crate::uses::{add_use, jump, reference};
use pli_base::declaration::Item;
use pli_base::syntax::Identifier;
use pli_base::{Code, Fault};
use pli_declare::Use;
use pli_declare_constructs::Nesting;
use pli_declare_outline::{Mark, Outline, PlacedMark};
use std::alloc::{AllocError, Global};

/// The faults of names that have these numbers in a block of these codes, from the first on. Gives the number after
/// them.
fn tell_names(
    codes: &[Option<Code>],
    first: usize,
    names: &[Identifier],
    faults: &mut Vec<Fault>,
) -> Result<usize, AllocError>
    requires { first + length names.now ≤ length codes.now }
    ensures number { IfOk result (λ n. n ≡ first + length names.now) }
    ensures faults { OnOk result (faults.new.items ≡ faults.old.items ++ name_faults codes.now first names.now) }
{
    let mut number = first;
    for name in names {
        tell(faults, name.at, codes[number])?;
        number += 1;
    }
    Ok(number)
}

/// The faults of the names of items. Gives the number after them.
fn tell_items(
    codes: &[Option<Code>],
    first: usize,
    items: &[Item],
    faults: &mut Vec<Fault>,
) -> Result<usize, AllocError>
    requires { first + length (flat_map (λ i. i.names) (map item_view items.now)) ≤ length codes.now }
    ensures number { IfOk result (λ n. n ≡ first + length (flat_map (λ i. i.names) (map item_view items.now))) }
    ensures faults { OnOk result (faults.new.items ≡ faults.old.items
        ++ name_faults codes.now first (flat_map (λ i. i.names) (map item_view items.now))) }
{
    let mut number = first;
    for item in items {
        number = tell_names(codes, number, &item.names, faults)?;
    }
    Ok(number)
}

/// The faults of the names that a mark declares. Gives the number after them.
fn tell_declared(
    codes: &[Option<Code>],
    first: usize,
    mark: &Mark,
    faults: &mut Vec<Fault>,
) -> Result<usize, AllocError>
    requires { first + length (declared_names (mark_view mark.now)) ≤ length codes.now }
    ensures number { IfOk result (λ n. n ≡ first + length (declared_names (mark_view mark.now))) }
    ensures faults { OnOk result (faults.new.items ≡ faults.old.items
        ++ name_faults codes.now first (declared_names (mark_view mark.now))) }
{
    match mark {
        Mark::Declared(items) => tell_items(codes, first, items, faults),
        Mark::Labelled(label) => tell_names(codes, first, &[*label], faults),
        Mark::Entered { procedure, .. } => tell_names(codes, first, &[procedure.name], faults),
        Mark::Used(_) | Mark::Jumped(_) => Ok(first),
    }
}

/// The fault of a reference and what it means, at its first name.
fn tell_reference(
    alloc: Global,
    scopes: &Scopes,
    here: usize,
    names: &[Identifier],
    faults: &mut Vec<Fault>,
    uses: &mut Vec<Use>,
) -> Result<(), AllocError>
    ensures faults { OnOk result (faults.new.items ≡ faults.old.items
        ++ used_faults (outline_view scopes.now.outline.now) here (Used names.now)) }
    ensures uses { OnOk result (uses.new.items ≡ uses.old.items
        ++ uses_at (outline_view scopes.now.outline.now) here (Used names.now)) }
{
    let Some(first) = names.first() else {
        return Ok(());
    };
    let used = reference(alloc, scopes, here, names)?;
    tell(faults, first.at, used.code)?;
    add_use(uses, first.at, used.target)
}

/// The fault of a GOTO and what its label means, at the label.
fn tell_jump(
    scopes: &Scopes,
    here: usize,
    label: Identifier,
    faults: &mut Vec<Fault>,
    uses: &mut Vec<Use>,
) -> Result<(), AllocError>
    ensures faults { OnOk result (faults.new.items ≡ faults.old.items
        ++ used_faults (outline_view scopes.now.outline.now) here (Jumped label)) }
    ensures uses { OnOk result (uses.new.items ≡ uses.old.items
        ++ uses_at (outline_view scopes.now.outline.now) here (Jumped label)) }
{
    let used = jump(scopes, here, label.name);
    tell(faults, label.at, used.code)?;
    add_use(uses, label.at, used.target)
}

/// The faults of the parameters of a mark, and of what it uses, which is looked up once, with what that means.
fn tell_used(
    alloc: Global,
    scopes: &Scopes,
    placed: &PlacedMark,
    faults: &mut Vec<Fault>,
    uses: &mut Vec<Use>,
) -> Result<(), AllocError>
    ensures faults { OnOk result (let o = outline_view scopes.now.outline.now in let mark = mark_view placed.now.mark in
        faults.new.items ≡ faults.old.items ++ parameter_faults o mark ++ used_faults o placed.now.region mark) }
    ensures uses { OnOk result (uses.new.items ≡ uses.old.items
        ++ uses_at (outline_view scopes.now.outline.now) placed.now.region (mark_view placed.now.mark)) }
{
    let here = placed.region;
    match &placed.mark {
        Mark::Declared(_) | Mark::Labelled(_) => Ok(()),
        Mark::Entered { procedure, region } => {
            tell_parameters(
                alloc,
                scopes.outline,
                scopes.tables,
                *region,
                &procedure.parameters,
                faults,
            )
        }
        Mark::Used(names) => { tell_reference(alloc, scopes, here, names.as_slice(), faults, uses) }
        Mark::Jumped(label) => tell_jump(scopes, here, *label, faults, uses),
    }
}

/// The marks of an outline but the first.
pub(crate) fn marks_after<'a, 'b>(outline: &'a Outline<'b>) -> &'a [PlacedMark<'b>]
    ensures { marks_view result.now ≡ inner_marks (outline_view outline.now).marks }
{
    let Some((_first, marks)) = outline.marks.split_first() else {
        return &outline.marks;
    };
    marks
}

/// The block of a region.
pub(crate) fn block_of(outline: &Outline, nesting: &Nesting, region: usize) -> usize
    requires { nesting.now ≡ regions_view outline.now.regions.items }
    ensures { result ≡ block_of (outline_view outline.now).regions region }
{
    match nesting.innermost(region) {
        Some(block) => block,
        None => 0,
    }
}

/// The faults of the marks after the first, in their order, where codes are those of each name of each block; and what
/// the names mean that they use.
pub(crate) fn tell_marks(
    alloc: Global,
    scopes: &Scopes,
    codes: &[Vec<Option<Code>>],
    marks: &[PlacedMark],
    faults: &mut Vec<Fault>,
    uses: &mut Vec<Use>,
) -> Result<(), AllocError>
    requires codes { AreCodes (map (λ list. list.items) codes.now) (outline_view scopes.now.outline.now) }
    requires marks { marks_view marks.now ≡ inner_marks (outline_view scopes.now.outline.now).marks }
    ensures faults { OnOk result (faults.new.items ≡ faults.old.items
        ++ faults_after (outline_view scopes.now.outline.now) [] (marks_view marks.now)) }
    ensures uses { OnOk result (uses.new.items ≡ uses.old.items
        ++ of_marks (uses_at (outline_view scopes.now.outline.now)) (marks_view marks.now)) }
{
    let mut next = Vec::from_elem(alloc, 0, codes.len())?;
    for placed in marks {
        let block = block_of(scopes.outline, scopes.nesting, placed.region);
        next[block] = tell_declared(&codes[block], next[block], &placed.mark, faults)?;
        tell_used(alloc, scopes, placed, faults, uses)?;
    }
    Ok(())
}
