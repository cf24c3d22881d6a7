//! The specification of a DO group.
ghost use Rattle.std.specs.Prelude.{◌≡◌, ◌≤◌, ◌+◌, length, option_map, codes, IfOk};
ghost use Rattle.pli_base.specs.views.SyntaxView.{expression_view, reference_view};
ghost use Rattle.pli_base.specs.views.StatementView.{control_view};
ghost use Rattle.pli_base.specs.views.StatementView as views;
ghost use Rattle.pli_parse_statement.specs.StatementReading.{expression_in, parenthesized, optional_at, range_at};
ghost use Rattle.pli_parse_statement.specs.StatementReading.{specified, control_from, control_at};
ghost use Rattle.pli_parse_statement.specs.StatementReading as reading;
ghost use Rattle.pli_parse_statement.specs.answers.ControlAnswers.{limited};
ghost use Rattle.pli_parse_statement.specs.answers.StatementAnswers.{specified_view, AfterWhile};
ghost use Rattle.pli_base.specs.answers.FailureAnswers.{Gives};
ghost use Rattle.pli_base.specs.answers.ReadingAnswers.{Advances, Continues, front_view};

use crate::cursor::{
    EachExpression, after_word, equals_taken, expression_in, is_name, parenthesized, reference_in,
};
use crate::word::{RangeWord, range_first};
use pli_base::statement::{Control, Range};
use pli_base::syntax::{Expression, Reference};
use pli_base::{Code, Front, ParseError, Sign, TokenText};
use std::alloc::Global;

/// How a specification begins.
enum SpecificationStart<'a> {
    Unspecified,
    /// With the tokens after WHILE, of which the first is `(`.
    Conditioned(&'a [TokenText]),
    Iterated,
}

/// How the specification begins: WHILE followed by `(` is the keyword, and any other word a variable's name.
#[tactic(auto, unfolding(crate::specs::StatementReading::specified))]
fn specified(texts: &[TokenText]) -> SpecificationStart<'_>
    ensures value { specified_view result ≡ specified texts.now }
    ensures place { AfterWhile texts.now result }
{
    match texts {
        [
            TokenText::Word(name),
            TokenText::Sign(Sign::OpenParenthesis),
            ..
        ] => {
            if is_name(name, b"WHILE") {
                SpecificationStart::Conditioned(&texts[1..])
            } else {
                SpecificationStart::Iterated
            }
        }
        [TokenText::Word(_), ..] => SpecificationStart::Iterated,
        _ => SpecificationStart::Unspecified,
    }
}

/// The word and an expression, if the word stands there.
#[tactic(auto, unfolding(crate::specs::StatementReading::optional_at))]
fn optional_expression<'a>(
    alloc: Global,
    levels: u32,
    word: &[u8],
    at: u32,
    texts: &'a [TokenText],
) -> Result<Front<'a, Option<Expression>>, ParseError>
    requires { at + length texts.now ≤ 200000 }
    ensures value { Gives (front_view (option_map expression_view)) result
        (optional_at word.now (expression_in levels) at texts.now) }
    ensures place { IfOk result (Continues at texts.now) }
{
    match after_word(word, texts) {
        Some(after) => {
            let read = expression_in(alloc, levels, at + 1, after)?;
            Ok(Front::new(Some(read.value), read.next, read.rest))
        }
        None => Ok(Front::new(None, at, texts)),
    }
}

/// WHILE and an expression in parentheses, if WHILE stands there.
#[tactic(auto, unfolding(crate::specs::StatementReading::optional_at))]
fn optional_condition<'a>(
    alloc: Global,
    levels: u32,
    at: u32,
    texts: &'a [TokenText],
) -> Result<Front<'a, Option<Expression>>, ParseError>
    requires { at + length texts.now ≤ 200000 }
    ensures value { Gives (front_view (option_map expression_view)) result
        (optional_at (codes "WHILE") (parenthesized (expression_in levels)) at texts.now) }
    ensures place { IfOk result (Continues at texts.now) }
{
    match after_word(b"WHILE", texts) {
        Some(after) => {
            let read = parenthesized(&EachExpression { alloc, levels }, at + 1, after)?;
            Ok(Front::new(Some(read.value), read.next, read.rest))
        }
        None => Ok(Front::new(None, at, texts)),
    }
}

/// TO with or without BY, BY with or without TO, REPEAT, or none of them.
#[tactic(auto, unfolding(crate::specs::StatementReading::range_at))]
fn range_at<'a>(
    alloc: Global,
    levels: u32,
    at: u32,
    texts: &'a [TokenText],
) -> Result<Front<'a, Option<Range>>, ParseError>
    requires { at + length texts.now ≤ 200000 }
    ensures value { Gives (front_view (option_map views.range_view)) result (range_at levels at texts.now) }
    ensures place { IfOk result (Continues at texts.now) }
{
    match range_first(texts) {
        None => Ok(Front::new(None, at, texts)),
        Some((RangeWord::To, after)) => {
            let to = expression_in(alloc, levels, at + 1, after)?;
            match optional_expression(alloc, levels, b"BY", to.next, to.rest) {
                Ok(by) => {
                    let range = Range::To {
                        to: to.value,
                        by: by.value,
                    };
                    Ok(Front::new(Some(range), by.next, by.rest))
                }
                Err(error) => {
                    drop(to);
                    Err(error)
                }
            }
        }
        Some((RangeWord::By, after)) => {
            let by = expression_in(alloc, levels, at + 1, after)?;
            match optional_expression(alloc, levels, b"TO", by.next, by.rest) {
                Ok(to) => {
                    let range = Range::By {
                        by: by.value,
                        to: to.value,
                    };
                    Ok(Front::new(Some(range), to.next, to.rest))
                }
                Err(error) => {
                    drop(by);
                    Err(error)
                }
            }
        }
        Some((RangeWord::Repeat, after)) => {
            let next = expression_in(alloc, levels, at + 1, after)?;
            Ok(Front::new(Some(Range::Repeat(next.value)), next.next, next.rest))
        }
    }
}

/// What limits or continues an iteration, after its variable and its first value.
#[tactic(auto)]
fn limited<'a>(
    alloc: Global,
    levels: u32,
    variable: Reference,
    equals: u32,
    first: Front<'a, Expression>,
) -> Result<Front<'a, Option<Control>>, ParseError>
    requires { first.next + length first.rest.now ≤ 200000 }
    ensures value { Gives (front_view (option_map control_view)) result
        (limited levels (reference_view variable) equals (front_view expression_view first.entry)) }
    ensures place { IfOk result (Continues first.entry.next first.entry.rest.now) }
{
    let range = match range_at(alloc, levels, first.next, first.rest) {
        Ok(range) => range,
        Err(error) => {
            drop(variable);
            drop(first);
            return Err(error);
        }
    };
    match optional_condition(alloc, levels, range.next, range.rest) {
        Ok(condition) => {
            let control = Control::Iterate {
                variable,
                equals,
                first: first.value,
                range: range.value,
                condition: condition.value,
            };
            Ok(Front::new(Some(control), condition.next, condition.rest))
        }
        Err(error) => {
            drop(variable);
            drop(first);
            drop(range);
            Err(error)
        }
    }
}

/// An iteration: a variable, its first value, and what limits or continues it.
#[tactic(auto)]
fn iteration_at<'a>(
    alloc: Global,
    levels: u32,
    at: u32,
    texts: &'a [TokenText],
) -> Result<Front<'a, Option<Control>>, ParseError>
    requires { at + length texts.now ≤ 200000 }
    ensures value { Gives (front_view (option_map control_view)) result
        (control_from levels at texts.now reading.Iterated) }
    ensures place { IfOk result (Advances at texts.now) }
{
    let variable = reference_in(alloc, levels, at, texts)?;
    let after = match equals_taken(Code::BadDo, variable.next, variable.rest) {
        Ok(after) => after,
        Err(error) => {
            drop(variable);
            return Err(error);
        }
    };
    match expression_in(alloc, levels, variable.next + 1, after) {
        Ok(first) => limited(alloc, levels, variable.value, variable.next, first),
        Err(error) => {
            drop(variable);
            Err(error)
        }
    }
}

/// What stands after DO: WHILE with its condition, an iteration, or nothing.
#[tactic(auto, unfolding(crate::specs::StatementReading::control_at))]
pub fn control_at<'a>(
    alloc: Global,
    levels: u32,
    at: u32,
    texts: &'a [TokenText],
) -> Result<Front<'a, Option<Control>>, ParseError>
    requires { at + length texts.now ≤ 200000 }
    ensures value { Gives (front_view (option_map control_view)) result (control_at levels at texts.now) }
    ensures place { IfOk result (Continues at texts.now) }
{
    match specified(texts) {
        SpecificationStart::Unspecified => Ok(Front::new(None, at, texts)),
        SpecificationStart::Conditioned(after) => {
            let condition = parenthesized(&EachExpression { alloc, levels }, at + 1, after)?;
            Ok(Front::new(
                Some(Control::While(condition.value)),
                condition.next,
                condition.rest,
            ))
        }
        SpecificationStart::Iterated => iteration_at(alloc, levels, at, texts),
    }
}
