//! What the readers of statements have in common: words, names, expressions in them, and lists.
ghost use Rattle.std.specs.Option.{option_copied};
ghost use Rattle.std.specs.Prelude.{◌≡◌, ◌≤◌, ◌+◌, length, map, option_map, true, IfOk, IfSome};
ghost use Rattle.pli_base.specs.Words.{same_name};
ghost use Rattle.pli_base.specs.views.SyntaxView.{expression_view, reference_view, arguments_view};
ghost use Rattle.pli_parse_expression.specs.Reading.{arguments_at, argument_of, inside};
ghost use Rattle.pli_parse_declaration.specs.DeclarationReading.{list_at};
ghost use Rattle.pli_parse_statement.specs.StatementWords.{after_word};
ghost use Rattle.pli_parse_statement.specs.StatementReading.{uncounted, expression_in, reference_in, parenthesized};
ghost use Rattle.pli_parse_statement.specs.StatementReading.{is_equals};
ghost use Rattle.pli_base.specs.Reading.{taken};
ghost use Rattle.pli_base.specs.answers.FailureAnswers.{Gives};
ghost use Rattle.pli_base.specs.answers.ReadingAnswers.{Advances, Continues, front_view};
ghost use Rattle.pli_parse_declaration.specs.declared.list.Separator.TheVariants.{Commas};
ghost use Rattle.std.proofs.Common.{refl};
ghost use Rattle.pli_base.specs.Syntax as syntax;

use pli_base::syntax::{Expression, Reference};
use pli_base::{Code, Front, Name, ParseError, Sign, TokenText, close_taken, misfit, open_taken};
use pli_parse_declaration::{ListReader, Separator, list_at};
use pli_parse_expression::{
    Counted, outermost_arguments_at, outermost_expression_at, reference_at,
};
use std::alloc::Global;

/// Whether the name is the word.
pub fn is_name(name: &Name, word: &[u8]) -> bool
    ensures { result ≡ same_name name.now word.now }
{
    name.is(word)
}

/// The tokens after the word, if they begin with it.
#[tactic(auto, unfolding(crate::specs::StatementWords::after_word))]
pub fn after_word<'a>(word: &[u8], texts: &'a [TokenText]) -> Option<&'a [TokenText]>
    ensures value { after_word word.now texts.now ≡ option_copied result }
    ensures place { IfSome result (λ rest. length rest.now + 1 ≡ length texts.now) }
{
    let [TokenText::Word(name), rest @ ..] = texts else {
        return None;
    };
    if is_name(name, word) {
        Some(rest)
    } else {
        None
    }
}

/// The tokens after `=`, which must stand.
#[tactic(auto, unfolding(pli_base::specs::Reading::taken, pli_base::specs::Words::rest_after))]
pub fn equals_taken(code: Code, at: u32, texts: &[TokenText]) -> Result<&[TokenText], ParseError>
    ensures value { Gives (λ rest. rest.now) result (taken is_equals code at texts.now) }
    ensures place { IfOk result (λ rest. length rest.now + 1 ≡ length texts.now) }
{
    match texts {
        [TokenText::Sign(Sign::Equals), rest @ ..] => Ok(rest),
        _ => Err(misfit(code, at, texts)),
    }
}

/// What was read, without the count of operators.
fn uncounted<T>(read: Front<'_, Counted<T>>) -> Front<'_, T>
    ensures { result ≡ record { value = read.entry.value.tree; next = read.entry.next; rest = read.entry.rest } }
{
    Front::new(read.value.tree, read.next, read.rest)
}

/// An outermost expression.
#[tactic(auto, unfolding(crate::specs::StatementReading::expression_in))]
pub fn expression_in<'a>(
    alloc: Global,
    levels: u32,
    at: u32,
    texts: &'a [TokenText],
) -> Result<Front<'a, Expression>, ParseError>
    requires { at + length texts.now ≤ 200000 }
    ensures value { Gives (front_view expression_view) result (expression_in levels at texts.now) }
    ensures place { IfOk result (Advances at texts.now) }
{
    Ok(uncounted(outermost_expression_at(alloc, levels, at, texts)?))
}

/// A reference that is no part of an expression.
#[tactic(auto, unfolding(crate::specs::StatementReading::reference_in))]
pub fn reference_in<'a>(
    alloc: Global,
    levels: u32,
    at: u32,
    texts: &'a [TokenText],
) -> Result<Front<'a, Reference>, ParseError>
    requires { at + length texts.now ≤ 200000 }
    ensures value { Gives (front_view reference_view) result (reference_in levels at texts.now) }
    ensures place { IfOk result (Advances at texts.now) }
{
    Ok(uncounted(reference_at(alloc, levels, at, texts)?))
}

/// The arguments after the name of CALL, if there are parentheses.
#[tactic(auto)]
pub fn arguments_in<'a>(
    alloc: Global,
    levels: u32,
    at: u32,
    texts: &'a [TokenText],
) -> Result<Front<'a, Option<Vec<Expression>>>, ParseError>
    requires { at + length texts.now ≤ 200000 }
    ensures value { Gives (front_view arguments_view) result
        (uncounted (arguments_at (option_map (argument_of true) (inside levels)) 0 at texts.now)) }
    ensures place { IfOk result (Continues at texts.now) }
{
    Ok(uncounted(outermost_arguments_at(alloc, levels, at, texts)?))
}

/// Outermost expressions, in which so many levels may be opened.
#[derive(Clone, Copy)]
pub struct EachExpression {
    pub alloc: Global,
    pub levels: u32,
}

impl ListReader for EachExpression {
    type Value = Expression;

    ghost Tree = { syntax.Expression };

    ghost tree = { expression_view };

    ghost trees = { map expression_view };

    ghost one = { λ r. expression_in r.levels };

    ghost each = { λ vs. refl };

    fn read<'a>(
        &self,
        at: u32,
        texts: &'a [TokenText],
    ) -> Result<Front<'a, Expression>, ParseError> {
        expression_in(self.alloc, self.levels, at, texts)
    }
}

/// References that are no part of an expression.
#[derive(Clone, Copy)]
pub struct EachReference {
    pub alloc: Global,
    pub levels: u32,
}

impl ListReader for EachReference {
    type Value = Reference;

    ghost Tree = { syntax.Reference };

    ghost tree = { reference_view };

    ghost trees = { map reference_view };

    ghost one = { λ r. reference_in r.levels };

    ghost each = { λ vs. refl };

    fn read<'a>(
        &self,
        at: u32,
        texts: &'a [TokenText],
    ) -> Result<Front<'a, Reference>, ParseError> {
        reference_in(self.alloc, self.levels, at, texts)
    }
}

/// A value in parentheses, which are no part of it.
#[tactic(auto, unfolding(crate::specs::StatementReading::parenthesized))]
pub fn parenthesized<'a, R: ListReader>(
    reader: &R,
    at: u32,
    texts: &'a [TokenText],
) -> Result<Front<'a, R::Value>, ParseError>
    requires { at + length texts.now ≤ 200000 }
    ensures value { Gives (front_view R.tree) result (parenthesized (R.one reader.now) at texts.now) }
    ensures place { IfOk result (Advances at texts.now) }
{
    let inside = open_taken(at, texts)?;
    let read = reader.read(at + 1, inside)?;
    let rest = close_taken(read.next, read.rest)?;
    Ok(Front::new(read.value, read.next + 1, rest))
}

/// Expressions in parentheses, with commas between.
#[tactic(auto, unfolding(crate::specs::StatementReading::parenthesized))]
pub fn parenthesized_expressions<'a>(
    alloc: Global,
    levels: u32,
    at: u32,
    texts: &'a [TokenText],
) -> Result<Front<'a, Vec<Expression>>, ParseError>
    requires { at + length texts.now ≤ 200000 }
    ensures value { Gives (front_view (λ v. map expression_view v.items)) result
        (parenthesized (list_at Commas (expression_in levels)) at texts.now) }
    ensures place { IfOk result (Advances at texts.now) }
{
    let inside = open_taken(at, texts)?;
    let read = list_at(
        alloc,
        Separator::Commas,
        &EachExpression { alloc, levels },
        at + 1,
        inside,
    )?;
    let rest = close_taken(read.next, read.rest)?;
    Ok(Front::new(read.value, read.next + 1, rest))
}
