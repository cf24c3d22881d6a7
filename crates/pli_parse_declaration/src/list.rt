//! Lists: one value or more, with what stands between them.
ghost use Rattle.std.specs.Prelude.{◌≡◌, ℕ, ◌≤◌, ◌+◌, List, Result, map, option_map, length, IfOk, IfSome};
ghost use Rattle.pli_base.specs.Words.{Tokens};
ghost use Rattle.pli_base.specs.Reading as reading;
ghost use Rattle.pli_base.specs.declared.token.Fault as token;
ghost use Rattle.pli_base.specs.answers.FailureAnswers.{Gives};
ghost use Rattle.pli_base.specs.answers.ReadingAnswers.{Advances, front_view};
ghost use Rattle.pli_parse_declaration.specs.Separators.{separated, after_separator};
ghost use Rattle.pli_parse_declaration.specs.DeclarationReading.{list_at};

use crate::front::with_attribute;
use pli_base::{Front, ParseError, TokenText, after_comma, after_period};
use std::alloc::Global;

/// What reads one value of a list.
pub trait ListReader {
    type Value: Drop;

    /// What a value is as a tree.
    ghost Tree: { Type 0 };

    ghost tree: { Self.Value → Tree };

    ghost trees: { List Self.Value → List Tree };

    /// What is read from a place on.
    ghost one: { Self → ℕ → Tokens → Result (reading.Front Tree) token.Fault };

    /// The value at the front of the tokens.
    fn read<'a>(
        &self,
        at: u32,
        texts: &'a [TokenText],
    ) -> Result<Front<'a, Self::Value>, ParseError>
        requires { at + length texts.now ≤ 200000 }
        ensures value { Gives (front_view tree) result (one self.now at texts.now) }
        ensures place { IfOk result (Advances at texts.now) };

    /// The trees of values are those of each.
    ghost each: { (values : List Self.Value) → trees values ≡ map tree values };
}

/// What stands between two values of a list.
#[derive(Clone, Copy)]
pub enum Separator {
    Commas,
    Periods,
    /// The list goes on where the keyword of an attribute stands.
    Nothing,
}

/// One value or more, as long as what separates them comes.
pub fn list_at<'a, R: ListReader>(
    alloc: Global,
    separator: Separator,
    reader: &R,
    at: u32,
    texts: &'a [TokenText],
) -> Result<Front<'a, Vec<R::Value>>, ParseError>
    requires { at + length texts.now ≤ 200000 }
    ensures value { Gives (front_view (λ v. R.trees v.items)) result
        (list_at separator (R.one reader.now) at texts.now) }
    ensures place { IfOk result (Advances at texts.now) }
{
    let mut values = Vec::new(alloc);
    let mut next = at;
    let mut rest = texts;
    loop {
        let read = reader.read(next, rest)?;
        values.push(read.value)?;
        match after_separator(separator, read.next, read.rest) {
            Some(after) => {
                next = after.next;
                rest = after.rest;
            }
            None => {
                return Ok(Front {
                    value: values,
                    next: read.next,
                    rest: read.rest,
                });
            }
        }
    }
}

/// The place and the tokens of the next value, if the list goes on.
fn after_separator(separator: Separator, at: u32, texts: &[TokenText]) -> Option<Front<'_, ()>>
    requires { at + length texts.now ≤ 200000 }
    ensures value { separated separator texts.now ≡ option_map (λ x. x.rest.now) result }
    ensures next { IfSome result (λ x. x.next ≡ after_separator separator at) }
    ensures place { IfSome result (λ x. (at ≤ x.next) × (x.next + length x.rest.now ≡ at + length texts.now)) }
{
    match separator {
        Separator::Commas => match after_comma(texts) {
            Some(rest) => Some(Front::new((), at + 1, rest)),
            None => None,
        },
        Separator::Periods => match after_period(texts) {
            Some(rest) => Some(Front::new((), at + 1, rest)),
            None => None,
        },
        Separator::Nothing => match with_attribute(texts) {
            Some(rest) => Some(Front::new((), at, rest)),
            None => None,
        },
    }
}
