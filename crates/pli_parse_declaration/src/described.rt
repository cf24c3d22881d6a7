//! Descriptions of parameters and of results.
ghost use Rattle.std.specs.Prelude.{◌≡◌, ◌≤◌, ◌+◌, length, map, IfOk};
ghost use Rattle.pli_base.specs.views.DeclarationView.{described_view, parameter_view};
ghost use Rattle.pli_parse_declaration.specs.DeclarationReading.{list_at, described_at, parameter_at, parameters_at};
ghost use Rattle.pli_parse_declaration.specs.DeclarationReading.{returned_at};
ghost use Rattle.pli_base.specs.answers.FailureAnswers.{Gives};
ghost use Rattle.pli_base.specs.answers.ReadingAnswers.{Advances, front_view};
ghost use Rattle.pli_parse_declaration.specs.declared.list.Separator.TheVariants.{Commas, Nothing};
ghost use Rattle.std.proofs.Common.{refl};
ghost use Rattle.pli_base.specs.Declarations as tree;

use crate::extent::dimensions_at;
use crate::front::{attribute_first, begins_description};
use crate::list::{ListReader, Separator, list_at};
use crate::nest::nest_at;
use crate::simple::simple_of;
use crate::word::AttributeWord;
use pli_base::declaration::{DescribedAttribute, ParameterDescription};
use pli_base::{Code, Front, ParseError, TokenText, after_close, close_taken, misfit, open_taken};
use std::alloc::Global;

/// An attribute of a description.
#[derive(Clone, Copy)]
struct EachDescribed {
    alloc: Global,
}

impl ListReader for EachDescribed {
    type Value = DescribedAttribute;

    ghost Tree = { tree.DescribedAttribute };

    ghost tree = { described_view };

    ghost trees = { map described_view };

    ghost one = { λ _. described_at };

    ghost each = { λ vs. refl };

    #[tactic(auto, unfolding(crate::specs::DeclarationReading::described_at))]
    fn read<'a>(
        &self,
        at: u32,
        texts: &'a [TokenText],
    ) -> Result<Front<'a, DescribedAttribute>, ParseError> {
        match attribute_first(texts) {
            Some((AttributeWord::Simple(word), rest)) => {
                let read = simple_of(self.alloc, word, at + 1, rest)?;
                Ok(Front::new(DescribedAttribute::Simple(read.value), read.next, read.rest))
            }
            Some((AttributeWord::Entry, _)) => {
                let nest = nest_at(self.alloc, at, texts)?;
                Ok(Front::new(DescribedAttribute::Entry, nest.next, nest.rest))
            }
            Some((AttributeWord::Returns, _)) => {
                let nest = nest_at(self.alloc, at, texts)?;
                Ok(Front::new(DescribedAttribute::Returns, nest.next, nest.rest))
            }
            None => Err(misfit(Code::BadAttribute, at, texts)),
        }
    }
}

/// The description of a parameter.
#[derive(Clone, Copy)]
struct EachParameter {
    alloc: Global,
}

impl ListReader for EachParameter {
    type Value = ParameterDescription;

    ghost Tree = { tree.ParameterDescription };

    ghost tree = { parameter_view };

    ghost trees = { map parameter_view };

    ghost one = { λ _. parameter_at };

    ghost each = { λ vs. refl };

    #[tactic(auto, unfolding(crate::specs::DeclarationReading::parameter_at))]
    fn read<'a>(
        &self,
        at: u32,
        texts: &'a [TokenText],
    ) -> Result<Front<'a, ParameterDescription>, ParseError> {
        let dimensions = dimensions_at(self.alloc, at, texts)?;
        let attributes = list_at(
            self.alloc,
            Separator::Nothing,
            &EachDescribed { alloc: self.alloc },
            dimensions.next,
            dimensions.rest,
        )?;
        Ok(Front::new(
            ParameterDescription {
                dimensions: dimensions.value,
                attributes: attributes.value,
            },
            attributes.next,
            attributes.rest,
        ))
    }
}

/// Descriptions of parameters and the `)`, after `ENTRY(`.
#[tactic(auto, unfolding(crate::specs::DeclarationReading::parameters_at))]
pub fn parameters_at<'a>(
    alloc: Global,
    at: u32,
    texts: &'a [TokenText],
) -> Result<Front<'a, Vec<ParameterDescription>>, ParseError>
    requires { at + length texts.now ≤ 200000 }
    ensures value { Gives (front_view (λ v. map parameter_view v.items)) result (parameters_at at texts.now) }
    ensures place { IfOk result (Advances at texts.now) }
{
    match after_close(texts) {
        Some(rest) => Ok(Front::new(Vec::new(alloc), at + 1, rest)),
        None => {
            if !begins_description(texts) {
                return Err(misfit(Code::ParenthesisExpected, at, texts));
            }
            let parameters = list_at(
                alloc,
                Separator::Commas,
                &EachParameter { alloc },
                at,
                texts,
            )?;
            let rest = close_taken(parameters.next, parameters.rest)?;
            Ok(Front::new(parameters.value, parameters.next + 1, rest))
        }
    }
}

/// The attributes of a result in parentheses: what stands after RETURNS, of PROCEDURE too.
#[tactic(auto, unfolding(crate::specs::DeclarationReading::returned_at))]
pub fn returned_at<'a>(
    alloc: Global,
    at: u32,
    texts: &'a [TokenText],
) -> Result<Front<'a, Vec<DescribedAttribute>>, ParseError>
    requires { at + length texts.now ≤ 200000 }
    ensures value { Gives (front_view (λ v. map described_view v.items)) result (returned_at at texts.now) }
    ensures place { IfOk result (Advances at texts.now) }
{
    let inside = open_taken(at, texts)?;
    let attributes = list_at(
        alloc,
        Separator::Nothing,
        &EachDescribed { alloc },
        at + 1,
        inside,
    )?;
    let rest = close_taken(attributes.next, attributes.rest)?;
    Ok(Front::new(attributes.value, attributes.next + 1, rest))
}
