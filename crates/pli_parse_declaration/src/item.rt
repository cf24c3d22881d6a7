//! The items of DECLARE.
ghost use Rattle.std.specs.Prelude.{◌≡◌, ◌≤◌, ◌+◌, length, map, IfOk};
ghost use Rattle.pli_base.specs.Declarations as tree;
ghost use Rattle.pli_base.specs.views.DeclarationView.{attribute_view, item_view};
ghost use Rattle.pli_parse_declaration.specs.DeclarationReading.{list_at, entry_at, attribute_at, attributes_at};
ghost use Rattle.pli_parse_declaration.specs.DeclarationReading.{identifier_at, names_at, item_at, declaration_at};
ghost use Rattle.pli_base.specs.Reading.{mapped};
ghost use Rattle.pli_base.specs.answers.FailureAnswers.{Gives};
ghost use Rattle.pli_base.specs.answers.ReadingAnswers.{Advances, Continues, front_view};
ghost use Rattle.pli_parse_declaration.specs.declared.list.Separator.TheVariants.{Commas, Nothing};
ghost use Rattle.pli_base.specs.declared.syntax.Identifier as syntax;
ghost use Rattle.std.proofs.Common.{refl, sym};
ghost use Rattle.std.proofs.lemmas.List.{map-id};

use crate::described::{parameters_at, returned_at};
use crate::extent::dimensions_at;
use crate::front::{attribute_first, level_at, with_attribute};
use crate::list::{ListReader, Separator, list_at};
use crate::simple::simple_of;
use crate::word::AttributeWord;
use pli_base::declaration::{Attribute, Item};
use pli_base::syntax::Identifier;
use pli_base::{
    Code, Front, ParseError, TokenText, after_open, close_taken, misfit, name_first,
    semicolon_taken,
};
use std::alloc::Global;

/// Descriptions of parameters in parentheses, or none: what stands after ENTRY.
#[tactic(auto, unfolding(crate::specs::DeclarationReading::entry_at))]
fn entry_at<'a>(
    alloc: Global,
    at: u32,
    texts: &'a [TokenText],
) -> Result<Front<'a, Attribute>, ParseError>
    requires { at + length texts.now ≤ 200000 }
    ensures value { Gives (front_view attribute_view) result (mapped tree.Entry (entry_at at texts.now)) }
    ensures place { IfOk result (Continues at texts.now) }
{
    match after_open(texts) {
        Some(inside) => {
            let parameters = parameters_at(alloc, at + 1, inside)?;
            Ok(Front::new(
                Attribute::Entry(Some(parameters.value)),
                parameters.next,
                parameters.rest,
            ))
        }
        None => Ok(Front::new(Attribute::Entry(None), at, texts)),
    }
}

/// An attribute of an item.
#[derive(Clone, Copy)]
struct EachAttribute {
    alloc: Global,
}

impl ListReader for EachAttribute {
    type Value = Attribute;

    ghost Tree = { tree.Attribute };

    ghost tree = { attribute_view };

    ghost trees = { map attribute_view };

    ghost one = { λ _. attribute_at };

    ghost each = { λ vs. refl };

    #[tactic(auto, unfolding(crate::specs::DeclarationReading::attribute_at))]
    fn read<'a>(
        &self,
        at: u32,
        texts: &'a [TokenText],
    ) -> Result<Front<'a, Attribute>, ParseError> {
        match attribute_first(texts) {
            Some((AttributeWord::Simple(word), rest)) => {
                let read = simple_of(self.alloc, word, at + 1, rest)?;
                Ok(Front::new(Attribute::Simple(read.value), read.next, read.rest))
            }
            Some((AttributeWord::Entry, rest)) => entry_at(self.alloc, at + 1, rest),
            Some((AttributeWord::Returns, rest)) => {
                let read = returned_at(self.alloc, at + 1, rest)?;
                Ok(Front::new(Attribute::Returns(read.value), read.next, read.rest))
            }
            None => Err(misfit(Code::BadAttribute, at, texts)),
        }
    }
}

/// Attributes as long as they come.
#[tactic(auto, unfolding(crate::specs::DeclarationReading::attributes_at))]
fn attributes_at<'a>(
    alloc: Global,
    at: u32,
    texts: &'a [TokenText],
) -> Result<Front<'a, Vec<Attribute>>, ParseError>
    requires { at + length texts.now ≤ 200000 }
    ensures value { Gives (front_view (λ v. map attribute_view v.items)) result (attributes_at at texts.now) }
    ensures place { IfOk result (Continues at texts.now) }
{
    match with_attribute(texts) {
        Some(_) => list_at(
            alloc,
            Separator::Nothing,
            &EachAttribute { alloc },
            at,
            texts,
        ),
        None => Ok(Front::new(Vec::new(alloc), at, texts)),
    }
}

/// Names with their places.
#[derive(Clone, Copy)]
struct EachIdentifier;

impl ListReader for EachIdentifier {
    type Value = Identifier;

    ghost Tree = { syntax.Identifier };

    ghost tree = { λ v. v };

    ghost trees = { λ vs. vs };

    ghost one = { λ _. identifier_at };

    ghost each = { λ vs. sym (map-id vs) };

    #[tactic(auto, unfolding(crate::specs::DeclarationReading::identifier_at, crate::specs::DeclarationReading::name_at))]
    fn read<'a>(
        &self,
        at: u32,
        texts: &'a [TokenText],
    ) -> Result<Front<'a, Identifier>, ParseError> {
        let Some(first) = name_first(texts) else {
            return Err(misfit(Code::NameExpected, at, texts));
        };
        let (name, rest) = first;
        Ok(Front::new(Identifier { name, at }, at + 1, rest))
    }
}

/// Names with commas between.
pub fn identifiers_at<'a>(
    alloc: Global,
    at: u32,
    texts: &'a [TokenText],
) -> Result<Front<'a, Vec<Identifier>>, ParseError>
    requires { at + length texts.now ≤ 200000 }
    ensures value { Gives (front_view (λ v. v.items)) result (list_at Commas identifier_at at texts.now) }
    ensures place { IfOk result (Advances at texts.now) }
{
    list_at(alloc, Separator::Commas, &EachIdentifier, at, texts)
}

/// One name, or names in parentheses.
#[tactic(auto, unfolding(crate::specs::DeclarationReading::names_at, crate::specs::DeclarationReading::identifier_at, crate::specs::DeclarationReading::name_at))]
fn names_at<'a>(
    alloc: Global,
    at: u32,
    texts: &'a [TokenText],
) -> Result<Front<'a, Vec<Identifier>>, ParseError>
    requires { at + length texts.now ≤ 200000 }
    ensures value { Gives (front_view (λ v. v.items)) result (names_at at texts.now) }
    ensures place { IfOk result (Advances at texts.now) }
{
    match after_open(texts) {
        Some(inside) => {
            let names = identifiers_at(alloc, at + 1, inside)?;
            let rest = close_taken(names.next, names.rest)?;
            Ok(Front::new(names.value, names.next + 1, rest))
        }
        None => {
            let Some(first) = name_first(texts) else {
                return Err(misfit(Code::NameExpected, at, texts));
            };
            let (name, rest) = first;
            let mut names = Vec::new(alloc);
            names.push(Identifier { name, at })?;
            Ok(Front::new(names, at + 1, rest))
        }
    }
}

/// An item.
#[derive(Clone, Copy)]
struct EachItem {
    alloc: Global,
}

impl ListReader for EachItem {
    type Value = Item;

    ghost Tree = { tree.Item };

    ghost tree = { item_view };

    ghost trees = { map item_view };

    ghost one = { λ _. item_at };

    ghost each = { λ vs. refl };

    #[tactic(auto, unfolding(crate::specs::DeclarationReading::item_at))]
    fn read<'a>(&self, at: u32, texts: &'a [TokenText]) -> Result<Front<'a, Item>, ParseError> {
        let level = level_at(at, texts);
        let names = names_at(self.alloc, level.next, level.rest)?;
        let dimensions = dimensions_at(self.alloc, names.next, names.rest)?;
        let attributes = attributes_at(self.alloc, dimensions.next, dimensions.rest)?;
        Ok(Front::new(
            Item {
                level: level.value,
                names: names.value,
                dimensions: dimensions.value,
                attributes: attributes.value,
            },
            attributes.next,
            attributes.rest,
        ))
    }
}

/// Items with commas between: what stands after DECLARE, up to what neither continues an item nor is a comma.
pub fn items_at<'a>(
    alloc: Global,
    at: u32,
    texts: &'a [TokenText],
) -> Result<Front<'a, Vec<Item>>, ParseError>
    requires { at + length texts.now ≤ 200000 }
    ensures value { Gives (front_view (λ v. map item_view v.items)) result (list_at Commas item_at at texts.now) }
    ensures place { IfOk result (Advances at texts.now) }
{
    list_at(alloc, Separator::Commas, &EachItem { alloc }, at, texts)
}

/// Items with the statement's `;`: all that stands after DECLARE.
#[tactic(auto, unfolding(crate::specs::DeclarationReading::declaration_at))]
pub fn declaration_at<'a>(
    alloc: Global,
    at: u32,
    texts: &'a [TokenText],
) -> Result<Front<'a, Vec<Item>>, ParseError>
    requires { at + length texts.now ≤ 200000 }
    ensures value { Gives (front_view (λ v. map item_view v.items)) result (declaration_at at texts.now) }
    ensures place { IfOk result (Advances at texts.now) }
{
    let items = items_at(alloc, at, texts)?;
    let rest = semicolon_taken(items.next, items.rest)?;
    Ok(Front::new(items.value, items.next + 1, rest))
}
