//! An ENTRY or RETURNS in a description. Nothing is kept of it, and it may be as deep as a text is long: so it is
//! walked by a loop, with a list of the parentheses that are open.
ghost use Rattle.std.specs.Prelude.{◌≡◌, ◌≤◌, ◌+◌, ◌<◌, [], ◌∷◌, List, Some, length, nat_eq, IfOk, MatchOption};
ghost use Rattle.pli_base.specs.Words.{is_close, rest_after};
ghost use Rattle.pli_parse_declaration.specs.DeclarationReading.{description_walk, parameters_walk, word_walk};
ghost use Rattle.pli_parse_declaration.specs.DeclarationReading.{closed_walk, after_attributes_walk, step_at, is_over};
ghost use Rattle.pli_parse_declaration.specs.DeclarationReading.{nest_at};
ghost use Rattle.pli_parse_declaration.specs.answers.DeclarationAnswers.{walk_view};
ghost use Rattle.pli_base.specs.answers.FailureAnswers.{Gives};
ghost use Rattle.pli_base.specs.answers.ReadingAnswers.{Advances, Continues, front_view};

use crate::extent::dimensions_at;
use crate::front::{attribute_first, begins_description};
use crate::simple::simple_of;
use crate::word::AttributeWord;
use pli_base::{
    Code, Front, ParseError, TokenText, after_close, after_comma, after_open, misfit, open_taken,
};
use std::alloc::{AllocError, Global};
use std::marker::Model;

/// An open parenthesis of a nest.
#[derive(Clone, Copy)]
pub enum Open {
    /// Of an ENTRY, which holds descriptions.
    Entry,
    /// Of a RETURNS, which holds attributes.
    Returns,
}

/// What a walk through a nest expects.
#[derive(Clone, Copy)]
pub enum Expects {
    /// An attribute must stand.
    Attribute,
    /// An attribute has ended.
    More,
}

/// The parentheses of a nest that are open. Contracts see the list of them, the innermost first.
#[derive(Drop)]
struct Nest {
    opens: Vec<Open>,
}

impl Model for Nest {
    ghost use Rattle.std.specs.Prelude.{List, reverse};
    ghost use Rattle.pli_parse_declaration.specs.declared.nest.Open.{Open};

    ghost Value = { List Open };

    ghost view = { λ n. reverse n.opens.items };
}

impl Nest {
    /// No parenthesis is open.
    fn new(alloc: Global) -> Nest
        ensures { result ≡ [] }
    {
        Nest {
            opens: Vec::new(alloc),
        }
    }

    /// Opens a parenthesis.
    fn open(&mut self, parenthesis: Open) -> Result<(), AllocError>
        ensures { IfOk result (λ _. self.new ≡ parenthesis ∷ self.old) }
    {
        self.opens.push(parenthesis)?;
        Ok(())
    }

    /// Closes the innermost parenthesis, and answers whose it was.
    fn close(&mut self) -> Option<Open>
        ensures { MatchOption result (self.old ≡ []) (λ parenthesis. self.old ≡ parenthesis ∷ self.new) }
    {
        self.opens.pop()
    }

    /// Whether no parenthesis is open.
    fn is_empty(&self) -> bool
        ensures { result ≡ nat_eq (length self.now) 0 }
    {
        self.opens.is_empty()
    }
}

/// A step through the dimensions of a description in an ENTRY.
#[tactic(auto, unfolding(crate::specs::DeclarationReading::description_walk))]
fn description_step<'a>(
    alloc: Global,
    nest: &mut Nest,
    at: u32,
    texts: &'a [TokenText],
) -> Result<Front<'a, Expects>, ParseError>
    requires { at + length texts.now ≤ 200000 }
    ensures value { Gives (walk_view nest.new) result (description_walk nest.old at texts.now) }
    ensures place { IfOk result (Continues at texts.now) }
{
    let dimensions = dimensions_at(alloc, at, texts)?;
    nest.open(Open::Entry)?;
    Ok(Front::new(Expects::Attribute, dimensions.next, dimensions.rest))
}

/// A step after `ENTRY(`.
fn parameters_step<'a>(
    alloc: Global,
    nest: &mut Nest,
    at: u32,
    texts: &'a [TokenText],
) -> Result<Front<'a, Expects>, ParseError>
    requires { at + length texts.now ≤ 200000 }
    ensures value { Gives (walk_view nest.new) result (parameters_walk nest.old at texts.now
        (rest_after is_close texts.now)) }
    ensures place { IfOk result (Continues at texts.now) }
{
    match after_close(texts) {
        Some(rest) => Ok(Front::new(Expects::More, at + 1, rest)),
        None => {
            if begins_description(texts) {
                description_step(alloc, nest, at, texts)
            } else {
                Err(misfit(Code::ParenthesisExpected, at, texts))
            }
        }
    }
}

/// A step after the keyword of an attribute.
#[tactic(auto, unfolding(crate::specs::DeclarationReading::word_walk))]
fn word_step<'a>(
    alloc: Global,
    nest: &mut Nest,
    word: AttributeWord,
    at: u32,
    texts: &'a [TokenText],
) -> Result<Front<'a, Expects>, ParseError>
    requires { at + length texts.now ≤ 200000 }
    ensures value { Gives (walk_view nest.new) result (word_walk nest.old word at texts.now) }
    ensures place { IfOk result (Continues at texts.now) }
{
    match word {
        AttributeWord::Simple(simple) => {
            let read = simple_of(alloc, simple, at, texts)?;
            Ok(Front::new(Expects::More, read.next, read.rest))
        }
        AttributeWord::Entry => match after_open(texts) {
            Some(inside) => parameters_step(alloc, nest, at + 1, inside),
            None => Ok(Front::new(Expects::More, at, texts)),
        },
        AttributeWord::Returns => {
            let inside = open_taken(at, texts)?;
            nest.open(Open::Returns)?;
            Ok(Front::new(Expects::Attribute, at + 1, inside))
        }
    }
}

/// A step over the `)` of a parenthesis that is taken off the nest.
fn closing_step(at: u32, texts: &[TokenText]) -> Result<Front<'_, Expects>, ParseError>
    requires { at + length texts.now ≤ 200000 }
    ensures value { (opens : List Open) → Gives (walk_view opens) result
        (closed_walk opens at texts.now (rest_after is_close texts.now)) }
    ensures place { IfOk result (Advances at texts.now) }
{
    match after_close(texts) {
        Some(rest) => Ok(Front::new(Expects::More, at + 1, rest)),
        None => Err(misfit(Code::ParenthesisExpected, at, texts)),
    }
}

/// A step after an attribute where no other begins: the innermost parenthesis closes, or in an ENTRY another
/// description follows.
#[tactic(auto, unfolding(crate::specs::DeclarationReading::after_attributes_walk))]
fn after_step<'a>(
    alloc: Global,
    nest: &mut Nest,
    at: u32,
    texts: &'a [TokenText],
) -> Result<Front<'a, Expects>, ParseError>
    requires { at + length texts.now ≤ 200000 }
    ensures value { Gives (walk_view nest.new) result (after_attributes_walk nest.old at texts.now) }
    ensures place { IfOk result (Advances at texts.now) }
{
    match nest.close() {
        Some(Open::Entry) => match after_comma(texts) {
            Some(rest) => description_step(alloc, nest, at + 1, rest),
            None => closing_step(at, texts),
        },
        Some(Open::Returns) => closing_step(at, texts),
        None => Err(misfit(Code::ParenthesisExpected, at, texts)),
    }
}

/// A step of the walk.
#[tactic(auto, unfolding(crate::specs::DeclarationReading::step_at))]
fn step_at<'a>(
    alloc: Global,
    nest: &mut Nest,
    expects: Expects,
    at: u32,
    texts: &'a [TokenText],
) -> Result<Front<'a, Expects>, ParseError>
    requires { at + length texts.now ≤ 200000 }
    ensures value { Gives (walk_view nest.new) result (step_at nest.old expects at texts.now) }
    ensures place { IfOk result (Advances at texts.now) }
{
    match attribute_first(texts) {
        Some((word, rest)) => word_step(alloc, nest, word, at + 1, rest),
        None => match expects {
            Expects::Attribute => Err(misfit(Code::BadAttribute, at, texts)),
            Expects::More => after_step(alloc, nest, at, texts),
        },
    }
}

/// Whether the attribute that the walk began with has ended.
fn is_over(nest: &Nest, expects: Expects) -> bool
    ensures { result ≡ is_over nest.now expects }
{
    match expects {
        Expects::Attribute => false,
        Expects::More => nest.is_empty(),
    }
}

/// An attribute, nothing of which is kept.
pub fn nest_at<'a>(
    alloc: Global,
    at: u32,
    texts: &'a [TokenText],
) -> Result<Front<'a, ()>, ParseError>
    requires { at + length texts.now ≤ 200000 }
    ensures value { Gives (front_view (λ n. n)) result (nest_at at texts.now) }
    ensures place { IfOk result (Advances at texts.now) }
{
    let mut nest = Nest::new(alloc);
    let mut expects = Expects::Attribute;
    let mut next = at;
    let mut rest = texts;
    loop {
        let step = step_at(alloc, &mut nest, expects, next, rest)?;
        expects = step.value;
        next = step.next;
        rest = step.rest;
        if is_over(&nest, expects) {
            return Ok(Front {
                value: (),
                next,
                rest,
            });
        }
    }
}
