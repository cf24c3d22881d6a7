//! What the names of a block are declared as, where none of them has a fault of its own.
ghost use Rattle.std.specs.Prelude.{◌≡◌, ◌<◌, map, option_map, length, IfOk};
ghost use Rattle.pli_map.specs.views.DescriptionView.{description_view};
ghost use Rattle.pli_declare.specs.Tables.{numbers_from};
ghost use Rattle.pli_declare_tables.specs.views.TableView.{entry_view, entries_view};
ghost use Rattle.pli_declare.specs.answers.Owners.{AreAfterOwners};
ghost use Rattle.pli_declare.specs.Places.{members_of};
ghost use Rattle.pli_declare.specs.Descriptions.{ShapesAreSound};
ghost use Rattle.pli_declare.specs.Declarations.{AreGood, declared_in};
ghost use Rattle.pli_declare.specs.views.DeclarationView.{kind_view, declaration_view};
ghost use Rattle.pli_declare_variables.specs.Judging.{all_judged};
ghost use Rattle.pli_declare_variables.specs.answers.Declaring.{kind_with, whole_at, IsFaultlessCut};

use crate::descriptions::describe;
use crate::items::is_variable;
use crate::judged::Judged;
use crate::returned::returned;
use crate::sizes::members_by_owner;
use pli_base::{Code, Name};
use pli_declare::{Declaration, DeclaredKind, ItemPlace};
use pli_declare_attributes::completed_item;
use pli_declare_tables::{Entity, Entry};
use pli_map::Description;
use std::alloc::{AllocError, Global};

/// The description of an entry that is a variable of its own.
fn whole_description(
    alloc: Global,
    entries: &[Entry],
    members: &[Vec<usize>],
    codes: &[Option<Code>],
    number: usize,
) -> Result<Option<Description>, AllocError>
    requires owners { AreAfterOwners (entries_view entries.now) }
    requires members { map (λ v. v.items) members.now ≡ map (members_of (entries_view entries.now))
        (numbers_from 0 (length entries.now)) }
    requires sound { ShapesAreSound (entries_view entries.now) codes.now }
    requires within { number < length entries.now }
    ensures { IfOk result (λ d. option_map description_view d
        ≡ whole_at (length entries.now) (entries_view entries.now) codes.now number) }
{
    let entry = &entries[number];
    if entry.owner.is_none() && is_variable(entry) {
        describe(alloc, entries, members, codes, number)
    } else {
        Ok(None)
    }
}

/// What a name without a fault is declared as, at its place, where its description is known; that the number of
/// elements above is cut at a limit makes no fault.
fn kind<'a>(
    alloc: Global,
    place: ItemPlace,
    entry: &Entry<'a>,
    description: Option<Description>,
) -> Result<DeclaredKind<'a>, AllocError>
    requires { IsFaultlessCut place (entry_view entry.now).entity }
    ensures { IfOk result (λ kind. kind_view kind ≡ kind_with place (option_map description_view description)
        (entry_view entry.now).entity) }
{
    match entry.entity {
        Entity::Item {
            facts,
            is_bad_level: _,
        } => Ok(DeclaredKind::Item {
            completed: completed_item(alloc, place, &facts)?,
            description,
        }),
        Entity::Label { region } => Ok(DeclaredKind::Label { region }),
        Entity::Procedure { procedure, region } => Ok(DeclaredKind::Procedure {
            returned: returned(procedure),
            region,
        }),
    }
}

/// The least code of each name of which this is known.
fn codes_of(alloc: Global, judged: &[Judged]) -> Result<Vec<Option<Code>>, AllocError>
    ensures { IfOk result (λ codes. codes.items ≡ map (λ j. j.code) judged.now) }
{
    let mut codes = Vec::with_capacity(alloc, judged.len())?;
    for one in judged {
        codes.push(one.code)?;
    }
    Ok(codes)
}

/// What each name of a block is declared as, of which this is known, where the parameters are those of the procedure
/// that is the block. It recurs as deep as structures nest, which is no deeper than levels go: at most 255, since no
/// level is a fault.
pub fn declare<'a>(
    alloc: Global,
    entries: &[Entry<'a>],
    parameters: &[Name],
    judged: &[Judged],
) -> Result<Vec<Declaration<'a>>, AllocError>
    requires owners { AreAfterOwners (entries_view entries.now) }
    requires good { AreGood (entries_view entries.now) parameters.now }
    requires judged { judged.now ≡ all_judged (entries_view entries.now) parameters.now }
    ensures { IfOk result (λ declarations. map declaration_view declarations.items
        ≡ declared_in (entries_view entries.now) parameters.now) }
{
    let _ = parameters;
    let codes = codes_of(alloc, judged)?;
    let members = members_by_owner(alloc, entries)?;
    let mut declarations = Vec::with_capacity(alloc, entries.len())?;
    for number in 0..entries.len() {
        let entry = &entries[number];
        let description = whole_description(alloc, entries, &members, &codes, number)?;
        let known = judged[number];
        declarations.push(Declaration {
            identifier: entry.identifier,
            owner: entry.owner,
            kind: kind(alloc, known.place, entry, description)?,
        })?;
    }
    Ok(declarations)
}
