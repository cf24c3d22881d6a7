//! Statements, with those inside them.
ghost use Rattle.std.specs.Prelude.{◌≡◌, ◌≤◌, ◌<◌, ◌+◌, ◌-◌, length, IfOk};
ghost use Rattle.pli_base.specs.Statements.{count, body_count, list_count, alternative_count};
ghost use Rattle.pli_base.specs.laws.StatementLaws.{boxed_view};
ghost use Rattle.pli_base.specs.views.StatementView.{body_view, statement_view, statements_view};
ghost use Rattle.pli_parse_statement.specs.StatementReading.{is_label, stopped, ending_at, list_in, begin_at, do_at};
ghost use Rattle.pli_parse_statement.specs.StatementReading.{procedure_at, alternative_from, if_at, on_at, keyed_at};
ghost use Rattle.pli_parse_statement.specs.StatementReading.{body_from, statement_at, inside_of};
ghost use Rattle.pli_parse_statement.specs.StatementReading as reading;
ghost use Rattle.pli_base.specs.Statements as tree;
ghost use Rattle.pli_parse_statement.specs.StatementWords as grammar;
ghost use Rattle.pli_parse_statement.specs.answers.StatementAnswers.{heading_view, tree_view, Counts, inside_at};
ghost use Rattle.pli_parse_statement.specs.answers.StatementAnswers.{listing_view, context_view, kind_view, AfterKind};
ghost use Rattle.pli_parse_statement.specs.answers.StatementAnswers.{IsBeginning, words};
ghost use Rattle.pli_base.specs.answers.FailureAnswers.{Gives};
ghost use Rattle.pli_base.specs.answers.ReadingAnswers.{Advances, front_view};

use pli_base::statement::{Body, Procedure, Statement};
use pli_base::syntax::Identifier;
use pli_base::{Code, Front, Name, ParseError, TokenText, fault, semicolon_taken};
use pli_parse_expression::Counted;
use pli_parse_statement::{
    Beginning, Context, Heading, Keyword, Listing, Misplacement, NextStatement, StatementKind,
    StatementStanding, assignment_at, bad_label, beginning_of, condition_at, control_at,
    else_first, expression_in, heading_at, label_at, next_of, simple_at, why_misplaced, word_taken,
};
use std::alloc::Global;

/// What was read where no statement is inside: only the statement itself is counted.
fn alone(read: Front<'_, Body>, number: u32) -> Front<'_, Counted<Body>>
    requires { number ≤ 200000 }
    ensures { result ≡ record {
      value = record { tree = read.entry.value; count = number + 1 };
      next = read.entry.next;
      rest = read.entry.rest;
    } }
{
    Counted::front(read.value, number + 1, read.next, read.rest)
}

/// The place of the last token of the text.
pub fn last_place(at: u32, texts: &[TokenText]) -> u32
    requires { at + length texts.now ≤ 200000 }
    ensures { result ≡ at + length texts.now - 1 }
{
    (at + texts.len() as u32).saturating_sub(1)
}

/// Whether the name is the label.
fn is_label(label: &Option<Identifier>, name: &Name) -> bool
    ensures { result ≡ is_label label.now name.now }
{
    match label {
        Some(label) => label.name.bytes() == name.bytes(),
        None => false,
    }
}

/// The `;` of an END.
#[tactic(auto, unfolding(pli_parse_statement::specs::StatementReading::stopped))]
fn stopped(at: u32, texts: &[TokenText]) -> Result<Front<'_, ()>, ParseError>
    requires { at + length texts.now ≤ 200000 }
    ensures value { Gives (front_view (λ u. tt)) result (stopped (tt {0}) at texts.now) }
    ensures place { IfOk result (Advances at texts.now) }
{
    let rest = semicolon_taken(at, texts)?;
    Ok(Front::new((), at + 1, rest))
}

/// What stands after END: nothing, or the label of the block or group; and `;`.
#[tactic(auto, unfolding(pli_parse_statement::specs::StatementReading::ending_at))]
fn ending_at<'a>(
    label: &Option<Identifier>,
    at: u32,
    texts: &'a [TokenText],
) -> Result<Front<'a, ()>, ParseError>
    requires { at + length texts.now ≤ 200000 }
    ensures value { Gives (front_view (λ u. tt)) result (ending_at label.now at texts.now) }
    ensures place { IfOk result (Advances at texts.now) }
{
    match texts {
        [TokenText::Word(name), after @ ..] => {
            if is_label(label, name) {
                stopped(at + 1, after)
            } else {
                Err(fault(Code::WrongEndName, at))
            }
        }
        _ => stopped(at, texts),
    }
}

/// Statements up to an END, and that END.
#[cycle(reader)]
#[tactic(auto)]
pub fn list_in<'a>(
    alloc: Global,
    levels: u32,
    context: Context,
    label: &Option<Identifier>,
    at: u32,
    number: u32,
    texts: &'a [TokenText],
) -> Result<Front<'a, Counted<Listing>>, ParseError>
    requires place { at + length texts.now ≤ 200000 }
    requires number { number ≤ at }
    ensures value { Gives (front_view (tree_view listing_view)) result
        (list_in (inside_at levels) (context_view context) label.now at number texts.now) }
    ensures numbers { IfOk result (λ x. x.value.count ≡ number
        + list_count (statements_view x.value.tree.statements.items) + 1) }
    ensures place { IfOk result (Counts at number texts.now) }
{
    let mut statements = Vec::new(alloc);
    let mut count = number;
    let mut next = at;
    let mut rest = texts;
    loop {
        let beginning = beginning_of(alloc, rest)?;
        match next_of(&beginning, rest) {
            NextStatement::EndsHere(after) => {
                let ended = ending_at(label, next + 1, after)?;
                let listing = Listing {
                    statements,
                    end: count,
                };
                return Ok(Counted::front(listing, count + 1, ended.next, ended.rest));
            }
            NextStatement::Another => {
                let read = statement_begun(alloc, levels, context, next, count, beginning, rest)?;
                count = read.value.count;
                statements.push(read.value.tree)?;
                next = read.next;
                rest = read.rest;
            }
        }
    }
}

/// What stands after BEGIN.
#[cycle(reader)]
#[tactic(auto, unfolding(pli_parse_statement::specs::StatementReading::begin_at), using(pli_base::specs::laws::StatementLaws::begin_made))]
fn begin_at<'a>(
    alloc: Global,
    levels: u32,
    context: Context,
    label: &Option<Identifier>,
    at: u32,
    number: u32,
    texts: &'a [TokenText],
) -> Result<Front<'a, Counted<Body>>, ParseError>
    requires place { at + length texts.now ≤ 200000 }
    requires number { number ≤ at }
    ensures value { Gives (front_view (tree_view body_view)) result
        (begin_at (inside_at levels) (context_view context) label.now at number texts.now) }
    ensures numbers { IfOk result (λ x. x.value.count ≡ number + body_count (body_view x.value.tree)) }
    ensures place { IfOk result (Counts at number texts.now) }
{
    let rest = semicolon_taken(at, texts)?;
    let inner = Context {
        standing: StatementStanding::InBlock,
        in_on_unit: context.in_on_unit,
    };
    let list = list_in(alloc, levels, inner, label, at + 1, number, rest)?;
    let count = list.value.count;
    let Listing { statements, end } = list.value.tree;
    Ok(Counted::front(Body::Begin { statements, end }, count, list.next, list.rest))
}

/// What stands after DO.
#[cycle(reader)]
#[tactic(auto, unfolding(pli_parse_statement::specs::StatementReading::do_at), using(pli_base::specs::laws::StatementLaws::do_made))]
fn do_at<'a>(
    alloc: Global,
    levels: u32,
    context: Context,
    label: &Option<Identifier>,
    at: u32,
    number: u32,
    texts: &'a [TokenText],
) -> Result<Front<'a, Counted<Body>>, ParseError>
    requires place { at + length texts.now ≤ 200000 }
    requires number { number ≤ at }
    ensures value { Gives (front_view (tree_view body_view)) result
        (do_at (inside_at levels) (context_view context) label.now at number texts.now) }
    ensures numbers { IfOk result (λ x. x.value.count ≡ number + body_count (body_view x.value.tree)) }
    ensures place { IfOk result (Counts at number texts.now) }
{
    let control = control_at(alloc, levels, at, texts)?;
    let rest = match semicolon_taken(control.next, control.rest) {
        Ok(rest) => rest,
        Err(error) => {
            drop(control);
            return Err(error);
        }
    };
    let inner = Context {
        standing: StatementStanding::InGroup,
        in_on_unit: context.in_on_unit,
    };
    let list = match list_in(alloc, levels, inner, label, control.next + 1, number, rest) {
        Ok(list) => list,
        Err(error) => {
            drop(control);
            return Err(error);
        }
    };
    let count = list.value.count;
    let Listing { statements, end } = list.value.tree;
    let body = Body::Do {
        control: control.value,
        statements,
        end,
    };
    Ok(Counted::front(body, count, list.next, list.rest))
}

/// A procedure inside a unit, of its parts.
#[tactic(auto, using(pli_base::specs::laws::StatementLaws::procedure_made))]
fn procedure_of(name: Identifier, number: u32, heading: Heading, list: Listing) -> Body
    ensures { body_view result ≡ tree.Procedure (heading_view name number heading)
        (statements_view list.statements.items) list.end }
{
    let procedure = Procedure {
        name,
        number,
        parameters: heading.parameters,
        options: heading.options,
        statements: list.statements,
        end: list.end,
    };
    Body::Procedure(procedure)
}

/// What stands after PROCEDURE, inside a unit; `number` is the number of the PROCEDURE.
#[cycle(reader)]
#[tactic(auto, unfolding(pli_parse_statement::specs::StatementReading::procedure_at))]
fn procedure_at<'a>(
    alloc: Global,
    levels: u32,
    label: &Option<Identifier>,
    at: u32,
    number: u32,
    texts: &'a [TokenText],
) -> Result<Front<'a, Counted<Body>>, ParseError>
    requires place { at + length texts.now ≤ 200000 }
    requires number { number < at }
    ensures value { Gives (front_view (tree_view body_view)) result
        (procedure_at (inside_at levels) label.now number at texts.now) }
    ensures numbers { IfOk result (λ x. x.value.count ≡ number + 1 + body_count (body_view x.value.tree)) }
    ensures place { IfOk result (Counts at (number + 1) texts.now) }
{
    let Some(name) = label else {
        return Err(fault(Code::BadLabel, at));
    };
    let heading = heading_at(alloc, at, texts)?;
    let context = Context {
        standing: StatementStanding::InBlock,
        in_on_unit: false,
    };
    let list = list_in(
        alloc,
        levels,
        context,
        label,
        heading.next,
        number + 1,
        heading.rest,
    )?;
    let count = list.value.count;
    let procedure = procedure_of(*name, number, heading.value, list.value.tree);
    Ok(Counted::front(procedure, count, list.next, list.rest))
}

/// ELSE and its statement, if it stands there.
#[cycle(reader)]
#[tactic(auto)]
fn alternative_at<'a>(
    alloc: Global,
    levels: u32,
    context: Context,
    at: u32,
    number: u32,
    texts: &'a [TokenText],
) -> Result<Front<'a, Counted<Option<Box<Statement>>>>, ParseError>
    requires place { at + length texts.now ≤ 200000 }
    requires number { number ≤ at }
    ensures value { Gives (front_view (tree_view boxed_view)) result
        (alternative_from (inside_at levels) (context_view context) at number texts.now
        (reading.else_first texts.now)) }
    ensures numbers { IfOk result (λ x. x.value.count ≡ number + alternative_count (boxed_view x.value.tree)) }
    ensures place { IfOk result (λ x. (x.value.count + at ≤ x.next + number)
        × (x.next + length x.rest.now ≡ at + length texts.now)) }
{
    let Some(after) = else_first(alloc, texts)? else {
        return Ok(Counted::front(None, number, at, texts));
    };
    let inner = Context {
        standing: StatementStanding::AsClause,
        in_on_unit: context.in_on_unit,
    };
    let read = statement_at(alloc, levels, inner, at + 1, number, after)?;
    let count = read.value.count;
    let alternative = Box::new(alloc, read.value.tree)?;
    Ok(Counted::front(Some(alternative), count, read.next, read.rest))
}

/// What stands after IF.
#[cycle(reader)]
#[tactic(auto, unfolding(pli_parse_statement::specs::StatementReading::if_at), using(pli_base::specs::laws::StatementLaws::if_made))]
fn if_at<'a>(
    alloc: Global,
    levels: u32,
    context: Context,
    at: u32,
    number: u32,
    texts: &'a [TokenText],
) -> Result<Front<'a, Counted<Body>>, ParseError>
    requires place { at + length texts.now ≤ 200000 }
    requires number { number ≤ at }
    ensures value { Gives (front_view (tree_view body_view)) result
        (if_at (inside_at levels) (context_view context) at number texts.now) }
    ensures numbers { IfOk result (λ x. x.value.count ≡ number + body_count (body_view x.value.tree)) }
    ensures place { IfOk result (Counts at number texts.now) }
{
    let condition = expression_in(alloc, levels, at, texts)?;
    let after = match word_taken(b"THEN", Code::ThenExpected, condition.next, condition.rest) {
        Ok(after) => after,
        Err(error) => {
            drop(condition);
            return Err(error);
        }
    };
    let inner = Context {
        standing: StatementStanding::AsClause,
        in_on_unit: context.in_on_unit,
    };
    let first = match statement_at(alloc, levels, inner, condition.next + 1, number, after) {
        Ok(first) => first,
        Err(error) => {
            drop(condition);
            return Err(error);
        }
    };
    let count = first.value.count;
    let consequence = Box::new(alloc, first.value.tree)?;
    match alternative_at(alloc, levels, context, first.next, count, first.rest) {
        Ok(second) => {
            let count = second.value.count;
            let body = Body::If {
                condition: condition.value,
                consequence,
                alternative: second.value.tree,
            };
            Ok(Counted::front(body, count, second.next, second.rest))
        }
        Err(error) => {
            drop(condition);
            drop(consequence);
            Err(error)
        }
    }
}

/// What stands after ON.
#[cycle(reader)]
#[tactic(auto, unfolding(pli_parse_statement::specs::StatementReading::on_at), using(pli_base::specs::laws::StatementLaws::on_made))]
fn on_at<'a>(
    alloc: Global,
    levels: u32,
    at: u32,
    number: u32,
    texts: &'a [TokenText],
) -> Result<Front<'a, Counted<Body>>, ParseError>
    requires place { at + length texts.now ≤ 200000 }
    requires number { number ≤ at }
    ensures value { Gives (front_view (tree_view body_view)) result (on_at (inside_at levels) at number texts.now) }
    ensures numbers { IfOk result (λ x. x.value.count ≡ number + body_count (body_view x.value.tree)) }
    ensures place { IfOk result (Counts at number texts.now) }
{
    let condition = condition_at(at, texts)?;
    let inner = Context {
        standing: StatementStanding::AsOnUnit,
        in_on_unit: true,
    };
    let read = statement_at(alloc, levels, inner, condition.next, number, condition.rest)?;
    let count = read.value.count;
    let unit = Box::new(alloc, read.value.tree)?;
    let body = Body::On {
        condition: condition.value,
        unit,
    };
    Ok(Counted::front(body, count, read.next, read.rest))
}

/// A statement after its keyword at `at`.
#[cycle(reader)]
#[tactic(auto, unfolding(pli_parse_statement::specs::StatementReading::inside_of))]
fn keyed_at<'a>(
    alloc: Global,
    levels: u32,
    context: Context,
    label: &Option<Identifier>,
    keyword: Keyword,
    at: u32,
    number: u32,
    rest: &'a [TokenText],
) -> Result<Front<'a, Counted<Body>>, ParseError>
    requires place { at + words keyword + length rest.now ≤ 200000 }
    requires number { number ≤ at }
    ensures value { Gives (front_view (tree_view body_view)) result
        (keyed_at levels (inside_of levels) (context_view context) label.now at number rest.now keyword) }
    ensures numbers { IfOk result (λ x. x.value.count ≡ number + 1 + body_count (body_view x.value.tree)) }
    ensures place { IfOk result (λ x. (x.value.count + at ≤ x.next + number)
        × (x.next + length x.rest.now ≡ at + words keyword + length rest.now)) }
{
    if levels == 0 {
        return Ok(alone(simple_at(alloc, levels, keyword, at, rest)?, number));
    }
    let inner = levels - 1;
    match keyword {
        Keyword::Procedure => procedure_at(alloc, inner, label, at + 1, number, rest),
        Keyword::Begin => begin_at(alloc, inner, context, label, at + 1, number + 1, rest),
        Keyword::Do => do_at(alloc, inner, context, label, at + 1, number + 1, rest),
        Keyword::If => if_at(alloc, inner, context, at + 1, number + 1, rest),
        Keyword::On => on_at(alloc, inner, at + 1, number + 1, rest),
        _ => Ok(alone(simple_at(alloc, levels, keyword, at, rest)?, number)),
    }
}

/// A statement of this kind after its label.
#[cycle(reader)]
#[tactic(auto)]
fn body_at<'a>(
    alloc: Global,
    levels: u32,
    context: Context,
    label: &Option<Identifier>,
    kind: StatementKind<'a>,
    at: u32,
    number: u32,
    texts: &'a [TokenText],
) -> Result<Front<'a, Counted<Body>>, ParseError>
    requires place { at + length texts.now ≤ 200000 }
    requires number { number ≤ at }
    requires kind { kind_view kind ≡ grammar.kind_of texts.now }
    requires after { AfterKind (length texts.now) kind }
    ensures value { Gives (front_view (tree_view body_view)) result
        (body_from levels (inside_of levels) (context_view context) label.now at number texts.now
        (grammar.kind_of texts.now)) }
    ensures numbers { IfOk result (λ x. x.value.count ≡ number + 1 + body_count (body_view x.value.tree)) }
    ensures place { IfOk result (λ x. (x.value.count + at ≤ x.next + number)
        × (x.next + length x.rest.now ≡ at + length texts.now)) }
{
    match kind {
        StatementKind::Assigns => Ok(alone(assignment_at(alloc, levels, at, texts)?, number)),
        StatementKind::Empty(rest) => Ok(Counted::front(Body::Null, number + 1, at + 1, rest)),
        StatementKind::Keyed(keyword, rest) => match why_misplaced(
            context,
            keyword,
            label.is_some(),
        ) {
            Some(Misplacement::AtLabel(code)) => match label {
                Some(label) => Err(fault(code, label.at)),
                None => Err(fault(code, at)),
            },
            Some(Misplacement::AtStatement(code)) => Err(fault(code, at)),
            None => keyed_at(alloc, levels, context, label, keyword, at, number, rest),
        },
        StatementKind::Unknown => Err(fault(Code::NotAStatement, at)),
    }
}

/// A statement with its label, where so many levels may be opened. `number` is its number.
#[cycle(reader)]
#[tactic(auto)]
pub fn statement_at<'a>(
    alloc: Global,
    levels: u32,
    context: Context,
    at: u32,
    number: u32,
    texts: &'a [TokenText],
) -> Result<Front<'a, Counted<Statement>>, ParseError>
    requires place { at + length texts.now ≤ 200000 }
    requires number { number ≤ at }
    ensures value { Gives (front_view (tree_view statement_view)) result
        (statement_at levels (context_view context) at number texts.now) }
    ensures numbers { IfOk result (λ x. x.value.count ≡ number + count (statement_view x.value.tree)) }
    ensures place { IfOk result (Counts at number texts.now) }
{
    let beginning = beginning_of(alloc, texts)?;
    statement_begun(alloc, levels, context, at, number, beginning, texts)
}

/// A statement that begins with this.
#[cycle(reader)]
#[tactic(auto, unfolding(pli_parse_statement::specs::StatementReading::statement_of), using(crate::proofs::StatementBeginnings::after_label))]
fn statement_begun<'a>(
    alloc: Global,
    levels: u32,
    context: Context,
    at: u32,
    number: u32,
    beginning: Beginning<'a>,
    texts: &'a [TokenText],
) -> Result<Front<'a, Counted<Statement>>, ParseError>
    requires place { at + length texts.now ≤ 200000 }
    requires number { number ≤ at }
    requires begins { IsBeginning texts.now beginning }
    ensures value { Gives (front_view (tree_view statement_view)) result
        (statement_at levels (context_view context) at number texts.now) }
    ensures numbers { IfOk result (λ x. x.value.count ≡ number + count (statement_view x.value.tree)) }
    ensures place { IfOk result (Counts at number texts.now) }
{
    if !beginning.has_semicolon {
        return Err(fault(Code::EndMissing, last_place(at, texts)));
    }
    if let Some(place) = bad_label(context.standing, at, texts) {
        return Err(fault(Code::BadLabel, place));
    }
    let label = label_at(at, texts);
    let body = body_at(
        alloc,
        levels,
        context,
        &label.value,
        beginning.kind,
        label.next,
        number,
        label.rest,
    )?;
    let count = body.value.count;
    let statement = Statement {
        number,
        label: label.value,
        at: label.next,
        body: body.value.tree,
    };
    Ok(Counted::front(statement, count, body.next, body.rest))
}
