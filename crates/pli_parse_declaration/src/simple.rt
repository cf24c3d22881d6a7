//! Attributes other than ENTRY and RETURNS, after their keywords.
ghost use Rattle.std.specs.Prelude.{◌≡◌, ◌≤◌, ◌+◌, length, IfOk};
ghost use Rattle.pli_base.specs.Declarations as tree;
ghost use Rattle.pli_base.specs.views.DeclarationView.{simple_view};
ghost use Rattle.pli_parse_declaration.specs.DeclarationReading.{list_at, name_at, area_at, locator_at, repeated_at};
ghost use Rattle.pli_parse_declaration.specs.DeclarationReading.{null_from, value_at, values_at, simple_of};
ghost use Rattle.pli_base.specs.Words.{is_open, rest_after};
ghost use Rattle.pli_base.specs.Reading.{mapped};
ghost use Rattle.pli_base.specs.answers.FailureAnswers.{Gives};
ghost use Rattle.pli_base.specs.answers.ReadingAnswers.{Advances, Continues, front_view};
ghost use Rattle.pli_parse_declaration.specs.declared.list.Separator.TheVariants.{Commas, Periods};
ghost use Rattle.pli_base.specs.Name as spelling;
ghost use Rattle.pli_base.specs.declared.declaration.InitialValue as initial;
ghost use Rattle.std.proofs.Common.{sym};
ghost use Rattle.std.proofs.lemmas.List.{map-id};

use crate::extent::{integer_at, length_at, precision_at};
use crate::front::number_at;
use crate::list::{ListReader, Separator, list_at};
use crate::word::SimpleWord;
use pli_base::declaration::{InitialValue, SimpleAttribute};
use pli_base::{
    Code, Front, Name, ParseError, Sign, TokenText, after_open, close_taken, misfit, name_first,
    open_taken,
};
use std::alloc::Global;

/// The name of an area in parentheses, or none: what stands after OFFSET.
#[tactic(auto, unfolding(crate::specs::DeclarationReading::area_at, crate::specs::DeclarationReading::name_at))]
fn offset_at(at: u32, texts: &[TokenText]) -> Result<Front<'_, SimpleAttribute>, ParseError>
    requires { at + length texts.now ≤ 200000 }
    ensures value { Gives (front_view simple_view) result (mapped tree.Offset (area_at at texts.now)) }
    ensures place { IfOk result (Continues at texts.now) }
{
    match after_open(texts) {
        Some(inside) => match name_first(inside) {
            Some((name, after)) => {
                let rest = close_taken(at + 2, after)?;
                Ok(Front::new(SimpleAttribute::Offset(Some(name)), at + 3, rest))
            }
            None => Err(misfit(Code::NameExpected, at + 1, inside)),
        },
        None => Ok(Front::new(SimpleAttribute::Offset(None), at, texts)),
    }
}

/// Names.
#[derive(Clone, Copy)]
struct EachName;

impl ListReader for EachName {
    type Value = Name;

    ghost Tree = { spelling.Name };

    ghost tree = { λ v. v };

    ghost trees = { λ vs. vs };

    ghost one = { λ _. name_at };

    ghost each = { λ vs. sym (map-id vs) };

    #[tactic(auto, unfolding(crate::specs::DeclarationReading::name_at))]
    fn read<'a>(&self, at: u32, texts: &'a [TokenText]) -> Result<Front<'a, Name>, ParseError> {
        let Some(first) = name_first(texts) else {
            return Err(misfit(Code::NameExpected, at, texts));
        };
        let (name, rest) = first;
        Ok(Front::new(name, at + 1, rest))
    }
}

/// A locator in parentheses, or none: what stands after BASED.
#[tactic(auto, unfolding(crate::specs::DeclarationReading::locator_at))]
fn based_at<'a>(
    alloc: Global,
    at: u32,
    texts: &'a [TokenText],
) -> Result<Front<'a, SimpleAttribute>, ParseError>
    requires { at + length texts.now ≤ 200000 }
    ensures value { Gives (front_view simple_view) result (mapped tree.Based (locator_at at texts.now)) }
    ensures place { IfOk result (Continues at texts.now) }
{
    match after_open(texts) {
        Some(inside) => {
            let names = list_at(alloc, Separator::Periods, &EachName, at + 1, inside)?;
            let rest = close_taken(names.next, names.rest)?;
            Ok(Front::new(
                SimpleAttribute::Based(Some(names.value)),
                names.next + 1,
                rest,
            ))
        }
        None => Ok(Front::new(SimpleAttribute::Based(None), at, texts)),
    }
}

/// A factor and its `)`, after the `(`, and the integer that is repeated.
#[tactic(auto, unfolding(crate::specs::DeclarationReading::repeated_at))]
fn repeated_at(at: u32, texts: &[TokenText]) -> Result<Front<'_, InitialValue>, ParseError>
    requires { at + length texts.now ≤ 200000 }
    ensures value { Gives (front_view (λ n. n)) result (repeated_at at texts.now) }
    ensures place { IfOk result (Advances at texts.now) }
{
    let factor = number_at(at, texts)?;
    let rest = close_taken(factor.next, factor.rest)?;
    let integer = integer_at(factor.next + 1, rest)?;
    Ok(Front::new(
        InitialValue::Integer {
            factor: Some(factor.value),
            value: integer.value,
        },
        integer.next,
        integer.rest,
    ))
}

/// What stands after NULL: `()` or nothing.
fn null_at(at: u32, texts: &[TokenText]) -> Result<Front<'_, InitialValue>, ParseError>
    requires { at + length texts.now ≤ 200000 }
    ensures value { Gives (front_view (λ n. n)) result (null_from at texts.now (rest_after is_open texts.now)) }
    ensures place { IfOk result (Continues at texts.now) }
{
    match after_open(texts) {
        Some(inside) => {
            let rest = close_taken(at + 1, inside)?;
            Ok(Front::new(InitialValue::Null, at + 2, rest))
        }
        None => Ok(Front::new(InitialValue::Null, at, texts)),
    }
}

/// A value in INITIAL.
#[derive(Clone, Copy)]
struct EachValue {
    alloc: Global,
}

impl ListReader for EachValue {
    type Value = InitialValue;

    ghost Tree = { initial.InitialValue };

    ghost tree = { λ v. v };

    ghost trees = { λ vs. vs };

    ghost one = { λ _. value_at };

    ghost each = { λ vs. sym (map-id vs) };

    #[tactic(auto, unfolding(crate::specs::DeclarationReading::value_at))]
    fn read<'a>(
        &self,
        at: u32,
        texts: &'a [TokenText],
    ) -> Result<Front<'a, InitialValue>, ParseError> {
        match texts {
            [TokenText::Characters(string), rest @ ..] => Ok(Front::new(
                InitialValue::Characters(string.copy(self.alloc)?),
                at + 1,
                rest,
            )),
            [TokenText::Bits(string), rest @ ..] => Ok(Front::new(
                InitialValue::Bits(string.copy(self.alloc)?),
                at + 1,
                rest,
            )),
            [TokenText::Sign(Sign::OpenParenthesis), rest @ ..] => repeated_at(at + 1, rest),
            [TokenText::Word(name), rest @ ..] => {
                if name.is(b"NULL") {
                    null_at(at + 1, rest)
                } else {
                    Err(misfit(Code::ConstantExpected, at, texts))
                }
            }
            _ => {
                let integer = integer_at(at, texts)?;
                Ok(Front::new(
                    InitialValue::Integer {
                        factor: None,
                        value: integer.value,
                    },
                    integer.next,
                    integer.rest,
                ))
            }
        }
    }
}

/// Values in parentheses: what stands after INITIAL.
#[tactic(auto, unfolding(crate::specs::DeclarationReading::values_at))]
fn initial_at<'a>(
    alloc: Global,
    at: u32,
    texts: &'a [TokenText],
) -> Result<Front<'a, SimpleAttribute>, ParseError>
    requires { at + length texts.now ≤ 200000 }
    ensures value { Gives (front_view simple_view) result (mapped tree.Initial (values_at at texts.now)) }
    ensures place { IfOk result (Advances at texts.now) }
{
    let inside = open_taken(at, texts)?;
    let values = list_at(
        alloc,
        Separator::Commas,
        &EachValue { alloc },
        at + 1,
        inside,
    )?;
    let rest = close_taken(values.next, values.rest)?;
    Ok(Front::new(
        SimpleAttribute::Initial(values.value),
        values.next + 1,
        rest,
    ))
}

/// An attribute in front of these tokens.
fn bare(attribute: SimpleAttribute, at: u32, texts: &[TokenText]) -> Front<'_, SimpleAttribute>
    ensures { front_view (λ a. a) result ≡ record { value = attribute; next = at; rest = texts.now } }
{
    Front::new(attribute, at, texts)
}

/// What stands after the keyword of a simple attribute.
#[tactic(auto, unfolding(crate::specs::DeclarationReading::simple_of))]
pub fn simple_of<'a>(
    alloc: Global,
    word: SimpleWord,
    at: u32,
    texts: &'a [TokenText],
) -> Result<Front<'a, SimpleAttribute>, ParseError>
    requires { at + length texts.now ≤ 200000 }
    ensures value { Gives (front_view simple_view) result (simple_of word at texts.now) }
    ensures place { IfOk result (Continues at texts.now) }
{
    match word {
        SimpleWord::Fixed => {
            let precision = precision_at(at, texts)?;
            let attribute = SimpleAttribute::Fixed(precision.value);
            Ok(bare(attribute, precision.next, precision.rest))
        }
        SimpleWord::Binary => {
            let precision = precision_at(at, texts)?;
            let attribute = SimpleAttribute::Binary(precision.value);
            Ok(bare(attribute, precision.next, precision.rest))
        }
        SimpleWord::Character => {
            let length = length_at(at, texts)?;
            let attribute = SimpleAttribute::Character(length.value);
            Ok(bare(attribute, length.next, length.rest))
        }
        SimpleWord::Bit => {
            let length = length_at(at, texts)?;
            let attribute = SimpleAttribute::Bit(length.value);
            Ok(bare(attribute, length.next, length.rest))
        }
        SimpleWord::Area => {
            let size = length_at(at, texts)?;
            let attribute = SimpleAttribute::Area(size.value);
            Ok(bare(attribute, size.next, size.rest))
        }
        SimpleWord::Offset => offset_at(at, texts),
        SimpleWord::Based => based_at(alloc, at, texts),
        SimpleWord::Initial => initial_at(alloc, at, texts),
        SimpleWord::Varying => Ok(bare(SimpleAttribute::Varying, at, texts)),
        SimpleWord::Pointer => Ok(bare(SimpleAttribute::Pointer, at, texts)),
        SimpleWord::Controlled => Ok(bare(SimpleAttribute::Controlled, at, texts)),
        SimpleWord::Static => Ok(bare(SimpleAttribute::Static, at, texts)),
        SimpleWord::Automatic => Ok(bare(SimpleAttribute::Automatic, at, texts)),
        SimpleWord::External => Ok(bare(SimpleAttribute::External, at, texts)),
        SimpleWord::Internal => Ok(bare(SimpleAttribute::Internal, at, texts)),
        SimpleWord::Builtin => Ok(bare(SimpleAttribute::Builtin, at, texts)),
    }
}
