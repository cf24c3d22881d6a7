//! Statements with no statement inside.
ghost use Rattle.std.specs.Prelude.{◌≡◌, ◌≤◌, ◌+◌, ◌<◌, length, map, option_map, IfOk, None};
ghost use Rattle.pli_parse_declaration.specs.DeclarationReading.{list_at, declaration_at, identifier_at};
ghost use Rattle.pli_base.specs.Words.{is_open, rest_after};
ghost use Rattle.pli_base.specs.views.SyntaxView.{expression_view, reference_view};
ghost use Rattle.pli_base.specs.Statements as tree;
ghost use Rattle.pli_base.specs.Statements.{body_count};
ghost use Rattle.pli_base.specs.views.StatementView.{allocation_view, body_view};
ghost use Rattle.pli_parse_statement.specs.answers.StatementAnswers.{words, place_view};
ghost use Rattle.pli_parse_statement.specs.StatementWords.{the_on_unit};
ghost use Rattle.pli_parse_statement.specs.StatementReading.{stopped, closing, condition_at, assignment_at, has_place};
ghost use Rattle.pli_parse_statement.specs.StatementReading.{with_place, places_from, allocation_at, put_from, put_at};
ghost use Rattle.pli_parse_statement.specs.StatementReading.{call_at, keyed_at, expression_in, reference_in};
ghost use Rattle.pli_base.specs.Reading.{if_open, mapped};
ghost use Rattle.pli_base.specs.answers.FailureAnswers.{Gives};
ghost use Rattle.pli_base.specs.answers.ReadingAnswers.{Advances, Continues, front_view};
ghost use Rattle.pli_parse_declaration.specs.declared.list.Separator.TheVariants.{Commas};
ghost use Rattle.std.proofs.Common.{refl};

use crate::cursor::{
    EachReference, arguments_in, equals_taken, expression_in, parenthesized,
    parenthesized_expressions, reference_in,
};
use crate::keyword::{Keyword, named_condition};
use crate::word::{PlaceWord, PutWord, place_first, put_first};
use pli_base::statement::{Allocation, Body, Condition};
use pli_base::syntax::{Expression, Identifier, Reference};
use pli_base::{
    Code, Front, ParseError, TokenText, after_open, close_taken, fault, misfit, semicolon_taken,
};
use pli_parse_declaration::{ListReader, Separator, declaration_at, list_at};
use std::alloc::Global;

/// The statement's `;`, after all else.
#[tactic(auto, unfolding(crate::specs::StatementReading::stopped))]
pub fn stopped(body: Body, at: u32, texts: &[TokenText]) -> Result<Front<'_, Body>, ParseError>
    requires { at + length texts.now ≤ 200000 }
    ensures value { Gives (front_view body_view) result (stopped (body_view body) at texts.now) }
    ensures same { IfOk result (λ x. x.value ≡ body) }
    ensures place { IfOk result (Advances at texts.now) }
{
    match semicolon_taken(at, texts) {
        Ok(rest) => Ok(Front::new(body, at + 1, rest)),
        Err(error) => {
            drop(body);
            Err(error)
        }
    }
}

/// An assignment.
#[tactic(auto, unfolding(crate::specs::StatementReading::assignment_at))]
pub fn assignment_at<'a>(
    alloc: Global,
    levels: u32,
    at: u32,
    texts: &'a [TokenText],
) -> Result<Front<'a, Body>, ParseError>
    requires { at + length texts.now ≤ 200000 }
    ensures value { Gives (front_view body_view) result (assignment_at levels at texts.now) }
    ensures alone { IfOk result (λ x. body_count (body_view x.value) ≡ 0) }
    ensures place { IfOk result (Advances at texts.now) }
{
    let target = reference_in(alloc, levels, at, texts)?;
    let after = match equals_taken(Code::NotAStatement, target.next, target.rest) {
        Ok(after) => after,
        Err(error) => {
            drop(target);
            return Err(error);
        }
    };
    match expression_in(alloc, levels, target.next + 1, after) {
        Ok(value) => {
            let body = Body::Assign {
                target: target.value,
                equals: target.next,
                value: value.value,
            };
            stopped(body, value.next, value.rest)
        }
        Err(error) => {
            drop(target);
            Err(error)
        }
    }
}

/// A condition.
#[tactic(auto, unfolding(crate::specs::StatementReading::condition_at, pli_base::specs::Reading::misfit))]
pub fn condition_at(at: u32, texts: &[TokenText]) -> Result<Front<'_, Condition>, ParseError>
    requires { at + length texts.now ≤ 200000 }
    ensures value { Gives (front_view (λ c. c)) result (condition_at at texts.now) }
    ensures place { IfOk result (Advances at texts.now) }
{
    let [TokenText::Word(name), rest @ ..] = texts else {
        return Err(misfit(Code::BadCondition, at, texts));
    };
    match named_condition(name) {
        Some(condition) => Ok(Front::new(condition, at + 1, rest)),
        None => Err(fault(Code::BadCondition, at)),
    }
}

/// Whether the allocation has what the word begins.
#[tactic(auto)]
fn has_place(word: PlaceWord, allocation: &Allocation) -> bool
    ensures { result ≡ has_place (place_view word) (option_map reference_view allocation.now.area)
        (option_map reference_view allocation.now.target) }
{
    match (word, &allocation.area, &allocation.target) {
        (PlaceWord::In, Some(_), _) | (PlaceWord::Set, _, Some(_)) => true,
        _ => false,
    }
}

/// The allocation with a reference where the word puts it.
#[tactic(auto)]
fn with_place(word: PlaceWord, allocation: Allocation, reference: Reference) -> Allocation
    ensures { allocation_view result ≡ with_place (place_view word) allocation.name
        (option_map reference_view allocation.area) (option_map reference_view allocation.target)
        (reference_view reference) }
{
    match word {
        PlaceWord::In => Allocation {
            name: allocation.name,
            area: Some(reference),
            target: allocation.target,
        },
        PlaceWord::Set => Allocation {
            name: allocation.name,
            area: allocation.area,
            target: Some(reference),
        },
    }
}

/// IN and SET of an allocation, each at most once; `bound` is one more than how many of them may stand.
#[tactic(auto, unfolding(crate::specs::StatementReading::places_from))]
fn places_from<'a>(
    alloc: Global,
    levels: u32,
    bound: u32,
    allocation: Allocation,
    at: u32,
    texts: &'a [TokenText],
) -> Result<Front<'a, Allocation>, ParseError>
    requires { at + length texts.now ≤ 200000 }
    ensures value { Gives (front_view allocation_view) result
        (places_from levels bound (allocation_view allocation) at texts.now) }
    ensures place { IfOk result (Continues at texts.now) }
{
    if bound == 0 {
        drop(allocation);
        return Err(fault(Code::BadOption, at));
    }
    match place_first(texts) {
        None => Ok(Front::new(allocation, at, texts)),
        Some((word, rest)) => {
            if has_place(word, &allocation) {
                drop(allocation);
                return Err(fault(Code::BadOption, at));
            }
            match parenthesized(&EachReference { alloc, levels }, at + 1, rest) {
                Ok(place) => {
                    let placed = with_place(word, allocation, place.value);
                    places_from(alloc, levels, bound - 1, placed, place.next, place.rest)
                }
                Err(error) => {
                    drop(allocation);
                    Err(error)
                }
            }
        }
    }
}

/// A variable of ALLOCATE, with its area and its locator.
#[derive(Clone, Copy)]
struct EachAllocation {
    alloc: Global,
    levels: u32,
}

impl ListReader for EachAllocation {
    type Value = Allocation;

    ghost Tree = { tree.Allocation };

    ghost tree = { allocation_view };

    ghost trees = { map allocation_view };

    ghost one = { λ r. allocation_at r.levels };

    ghost each = { λ vs. refl };

    #[tactic(auto, unfolding(crate::specs::StatementReading::allocation_at, pli_parse_declaration::specs::DeclarationReading::identifier_at, pli_parse_declaration::specs::DeclarationReading::name_at, pli_base::specs::Words::name_first))]
    fn read<'a>(
        &self,
        at: u32,
        texts: &'a [TokenText],
    ) -> Result<Front<'a, Allocation>, ParseError> {
        let [TokenText::Word(name), rest @ ..] = texts else {
            return Err(misfit(Code::NameExpected, at, texts));
        };
        let allocation = Allocation {
            name: Identifier { name: *name, at },
            area: None,
            target: None,
        };
        places_from(self.alloc, self.levels, 3, allocation, at + 1, rest)
    }
}

/// SKIP and LIST of PUT, each at most once; `bound` is one more than how many of them may stand.
#[tactic(auto, unfolding(crate::specs::StatementReading::put_from))]
fn put_from<'a>(
    alloc: Global,
    levels: u32,
    bound: u32,
    skip: bool,
    items: Vec<Expression>,
    at: u32,
    texts: &'a [TokenText],
) -> Result<Front<'a, Body>, ParseError>
    requires { at + length texts.now ≤ 200000 }
    ensures value { Gives (front_view body_view) result (put_from levels bound skip
        (map expression_view items.items) at texts.now) }
    ensures alone { IfOk result (λ x. body_count (body_view x.value) ≡ 0) }
    ensures place { IfOk result (Continues at texts.now) }
{
    if bound == 0 {
        return Err(fault(Code::BadOption, at));
    }
    match put_first(texts) {
        None => Ok(Front::new(Body::Put { skip, items }, at, texts)),
        Some((PutWord::Skip, rest)) => {
            if skip {
                return Err(fault(Code::BadOption, at));
            }
            put_from(alloc, levels, bound - 1, true, items, at + 1, rest)
        }
        Some((PutWord::List, rest)) => {
            if !items.is_empty() {
                return Err(fault(Code::BadOption, at));
            }
            let list = parenthesized_expressions(alloc, levels, at + 1, rest)?;
            put_from(
                alloc,
                levels,
                bound - 1,
                skip,
                list.value,
                list.next,
                list.rest,
            )
        }
    }
}

/// What stands after PUT: SKIP, LIST or both.
#[tactic(auto, unfolding(crate::specs::StatementReading::put_at))]
fn put_at<'a>(
    alloc: Global,
    levels: u32,
    at: u32,
    texts: &'a [TokenText],
) -> Result<Front<'a, Body>, ParseError>
    requires { at + length texts.now ≤ 200000 }
    ensures value { Gives (front_view body_view) result (closing (λ x. x) (put_at levels at texts.now)) }
    ensures alone { IfOk result (λ x. body_count (body_view x.value) ≡ 0) }
    ensures place { IfOk result (Advances at texts.now) }
{
    match put_first(texts) {
        Some(_) => {
            let put = put_from(alloc, levels, 3, false, Vec::new(alloc), at, texts)?;
            stopped(put.value, put.next, put.rest)
        }
        None => Err(misfit(Code::BadOption, at, texts)),
    }
}

/// What stands after CALL.
#[tactic(auto, unfolding(crate::specs::StatementReading::call_at, pli_parse_declaration::specs::DeclarationReading::identifier_at, pli_parse_declaration::specs::DeclarationReading::name_at, pli_base::specs::Words::name_first))]
fn call_at<'a>(
    alloc: Global,
    levels: u32,
    at: u32,
    texts: &'a [TokenText],
) -> Result<Front<'a, Body>, ParseError>
    requires { at + length texts.now ≤ 200000 }
    ensures value { Gives (front_view body_view) result (closing (λ x. x) (call_at levels at texts.now)) }
    ensures alone { IfOk result (λ x. body_count (body_view x.value) ≡ 0) }
    ensures place { IfOk result (Advances at texts.now) }
{
    let [TokenText::Word(name), rest @ ..] = texts else {
        return Err(misfit(Code::NameExpected, at, texts));
    };
    let arguments = arguments_in(alloc, levels, at + 1, rest)?;
    let body = Body::Call {
        name: Identifier { name: *name, at },
        arguments: arguments.value,
    };
    stopped(body, arguments.next, arguments.rest)
}

/// What stands after GOTO or GO TO.
#[tactic(auto, unfolding(pli_parse_declaration::specs::DeclarationReading::identifier_at, pli_parse_declaration::specs::DeclarationReading::name_at, pli_base::specs::Words::name_first))]
fn goto_at(at: u32, texts: &[TokenText]) -> Result<Front<'_, Body>, ParseError>
    requires { at + length texts.now ≤ 200000 }
    ensures value { Gives (front_view body_view) result (closing tree.Goto (identifier_at at texts.now)) }
    ensures alone { IfOk result (λ x. body_count (body_view x.value) ≡ 0) }
    ensures place { IfOk result (Advances at texts.now) }
{
    let [TokenText::Word(name), rest @ ..] = texts else {
        return Err(misfit(Code::NameExpected, at, texts));
    };
    stopped(Body::Goto(Identifier { name: *name, at }), at + 1, rest)
}

/// What stands after RETURN.
#[tactic(auto)]
fn return_at<'a>(
    alloc: Global,
    levels: u32,
    at: u32,
    texts: &'a [TokenText],
) -> Result<Front<'a, Body>, ParseError>
    requires { at + length texts.now ≤ 200000 }
    ensures value { Gives (front_view body_view) result (closing tree.Return
        (if_open (expression_in levels) at texts.now (rest_after is_open texts.now))) }
    ensures alone { IfOk result (λ x. body_count (body_view x.value) ≡ 0) }
    ensures place { IfOk result (Advances at texts.now) }
{
    match after_open(texts) {
        Some(inside) => {
            let value = expression_in(alloc, levels, at + 1, inside)?;
            match close_taken(value.next, value.rest) {
                Ok(rest) => stopped(Body::Return(Some(value.value)), value.next + 1, rest),
                Err(error) => {
                    drop(value);
                    Err(error)
                }
            }
        }
        None => stopped(Body::Return(None), at, texts),
    }
}

/// What stands after DECLARE.
#[tactic(auto)]
fn declare_at(alloc: Global, at: u32, texts: &[TokenText]) -> Result<Front<'_, Body>, ParseError>
    requires { at + length texts.now ≤ 200000 }
    ensures value { Gives (front_view body_view) result (mapped tree.Declare (declaration_at at texts.now)) }
    ensures alone { IfOk result (λ x. body_count (body_view x.value) ≡ 0) }
    ensures place { IfOk result (Advances at texts.now) }
{
    let items = declaration_at(alloc, at, texts)?;
    Ok(Front::new(Body::Declare(items.value), items.next, items.rest))
}

/// What stands after REVERT.
#[tactic(auto)]
fn revert_at(at: u32, texts: &[TokenText]) -> Result<Front<'_, Body>, ParseError>
    requires { at + length texts.now ≤ 200000 }
    ensures value { Gives (front_view body_view) result (closing tree.Revert (condition_at at texts.now)) }
    ensures alone { IfOk result (λ x. body_count (body_view x.value) ≡ 0) }
    ensures place { IfOk result (Advances at texts.now) }
{
    let read = condition_at(at, texts)?;
    stopped(Body::Revert(read.value), read.next, read.rest)
}

/// What stands after SIGNAL.
#[tactic(auto)]
fn signal_at(at: u32, texts: &[TokenText]) -> Result<Front<'_, Body>, ParseError>
    requires { at + length texts.now ≤ 200000 }
    ensures value { Gives (front_view body_view) result (closing tree.Signal (condition_at at texts.now)) }
    ensures alone { IfOk result (λ x. body_count (body_view x.value) ≡ 0) }
    ensures place { IfOk result (Advances at texts.now) }
{
    let read = condition_at(at, texts)?;
    stopped(Body::Signal(read.value), read.next, read.rest)
}

/// What stands after ALLOCATE.
#[tactic(auto)]
fn allocate_at<'a>(
    alloc: Global,
    levels: u32,
    at: u32,
    texts: &'a [TokenText],
) -> Result<Front<'a, Body>, ParseError>
    requires { at + length texts.now ≤ 200000 }
    ensures value { Gives (front_view body_view) result (closing tree.Allocate
        (list_at Commas (allocation_at levels) at texts.now)) }
    ensures alone { IfOk result (λ x. body_count (body_view x.value) ≡ 0) }
    ensures place { IfOk result (Advances at texts.now) }
{
    let each = EachAllocation { alloc, levels };
    let read = list_at(alloc, Separator::Commas, &each, at, texts)?;
    stopped(Body::Allocate(read.value), read.next, read.rest)
}

/// What stands after FREE.
#[tactic(auto)]
fn free_at<'a>(
    alloc: Global,
    levels: u32,
    at: u32,
    texts: &'a [TokenText],
) -> Result<Front<'a, Body>, ParseError>
    requires { at + length texts.now ≤ 200000 }
    ensures value { Gives (front_view body_view) result (closing tree.Free
        (list_at Commas (reference_in levels) at texts.now)) }
    ensures alone { IfOk result (λ x. body_count (body_view x.value) ≡ 0) }
    ensures place { IfOk result (Advances at texts.now) }
{
    let each = EachReference { alloc, levels };
    let read = list_at(alloc, Separator::Commas, &each, at, texts)?;
    stopped(Body::Free(read.value), read.next, read.rest)
}

/// A statement after its keyword at `at`, where no level may be opened.
#[tactic(auto)]
pub fn simple_at<'a>(
    alloc: Global,
    levels: u32,
    keyword: Keyword,
    at: u32,
    rest: &'a [TokenText],
) -> Result<Front<'a, Body>, ParseError>
    requires { at + words keyword + length rest.now ≤ 200000 }
    ensures value { Gives (front_view body_view) result (keyed_at levels None the_on_unit None at 0 rest.now keyword) }
    ensures alone { IfOk result (λ x. body_count (body_view x.value) ≡ 0) }
    ensures place { IfOk result (λ x. (at < x.next) × (x.next + length x.rest.now
        ≡ at + words keyword + length rest.now)) }
{
    match keyword {
        Keyword::Procedure | Keyword::Begin | Keyword::Do | Keyword::If | Keyword::On => {
            Err(fault(Code::NestedTooDeep, at))
        }
        Keyword::End => Err(fault(Code::MisplacedStatement, at)),
        Keyword::Declare => declare_at(alloc, at + 1, rest),
        Keyword::Revert => revert_at(at + 1, rest),
        Keyword::Signal => signal_at(at + 1, rest),
        Keyword::Stop => stopped(Body::Stop, at + 1, rest),
        Keyword::Allocate => allocate_at(alloc, levels, at + 1, rest),
        Keyword::Free => free_at(alloc, levels, at + 1, rest),
        Keyword::Call => call_at(alloc, levels, at + 1, rest),
        Keyword::Goto => goto_at(at + 1, rest),
        Keyword::GoTo => goto_at(at + 2, rest),
        Keyword::Return => return_at(alloc, levels, at + 1, rest),
        Keyword::Put => put_at(alloc, levels, at + 1, rest),
    }
}
