//! Reading expressions and references.
ghost use Rattle.std.specs.Prelude.{◌≡◌, ℕ, ◌+◌, ◌<◌, ◌≤◌, length, option_map, IfOk, IfSome, false, true};
ghost use Rattle.pli_base.specs.Syntax.{Infix};
ghost use Rattle.pli_base.specs.views.SyntaxView.{expression_view, reference_view};
ghost use Rattle.pli_parse_expression.specs.Operators.{infix_of, level_of, operator_at, joining_at, begins_expression};
ghost use Rattle.pli_parse_expression.specs.Reading.{infix_from, right_of, operand_at, inside, expression_at};
ghost use Rattle.pli_parse_expression.specs.Reading.{expression_of, argument_of, listed_at, list_at, arguments_at};
ghost use Rattle.pli_parse_expression.specs.Reading.{joined_from, reference_of, reference_at, prefix_of};
ghost use Rattle.pli_parse_expression.specs.Reading.{parenthesis_of, constant_at};
ghost use Rattle.pli_base.specs.answers.FailureAnswers.{Gives};
ghost use Rattle.pli_base.specs.answers.ReadingAnswers.{front_view, Advances, Continues};
ghost use Rattle.pli_parse_expression.specs.answers.Answers.{counted_view};
ghost use Rattle.pli_base.specs.views.SyntaxView.{expressions_view, arguments_view, joined_view};

use crate::counted::Counted;
use pli_base::syntax::{
    ConstantValue, Expression, Identifier, InfixOperator, JoinedPart, Joining, Part,
    PrefixOperator, Reference,
};
use pli_base::{
    Code, Front, ParseError, Sign, TokenText, after_comma, close_taken, fault, misfit, name_first,
};
use std::alloc::{AllocError, Global};

/// The greatest number of operators in an expression (own).
const OPERATOR_LIMIT: u32 = 1000;

/// The infix operator that a token is.
fn infix_operator(text: &TokenText) -> Option<InfixOperator>
    ensures { infix_of text.now ≡ result }
{
    match text {
        TokenText::Sign(Sign::Or) => Some(InfixOperator::Or),
        TokenText::Sign(Sign::And) => Some(InfixOperator::And),
        TokenText::Sign(Sign::Equals) => Some(InfixOperator::Equal),
        TokenText::Sign(Sign::NotEqual) => Some(InfixOperator::NotEqual),
        TokenText::Sign(Sign::Less) => Some(InfixOperator::Less),
        TokenText::Sign(Sign::LessOrEqual) => Some(InfixOperator::LessOrEqual),
        TokenText::Sign(Sign::Greater) => Some(InfixOperator::Greater),
        TokenText::Sign(Sign::GreaterOrEqual) => Some(InfixOperator::GreaterOrEqual),
        TokenText::Sign(Sign::Concatenate) => Some(InfixOperator::Concatenate),
        TokenText::Sign(Sign::Plus) => Some(InfixOperator::Add),
        TokenText::Sign(Sign::Minus) => Some(InfixOperator::Subtract),
        TokenText::Sign(Sign::Times) => Some(InfixOperator::Multiply),
        _ => None,
    }
}

/// The priority of an infix operator, from 1 to 6.
fn level_of(operator: InfixOperator) -> u32
    ensures value { result ≡ level_of operator }
    ensures small { result < 7 }
{
    match operator {
        InfixOperator::Or => 1,
        InfixOperator::And => 2,
        InfixOperator::Equal
        | InfixOperator::NotEqual
        | InfixOperator::Less
        | InfixOperator::LessOrEqual
        | InfixOperator::Greater
        | InfixOperator::GreaterOrEqual => 3,
        InfixOperator::Concatenate => 4,
        InfixOperator::Add | InfixOperator::Subtract => 5,
        InfixOperator::Multiply => 6,
    }
}

/// The infix operator of level `min` or more that the tokens begin with, and the tokens after it.
#[tactic(auto, unfolding(crate::specs::Operators::operator_at))]
fn operator_at(min: u32, texts: &[TokenText]) -> Option<(InfixOperator, &[TokenText])>
    ensures value { operator_at min texts.now ≡ option_map (λ x. (x.0, x.1.now)) result }
    ensures place { IfSome result (λ x. length x.1.now + 1 ≡ length texts.now) }
{
    let [first, rest @ ..] = texts else {
        return None;
    };
    let operator = infix_operator(first)?;
    if level_of(operator) < min {
        None
    } else {
        Some((operator, rest))
    }
}

/// How the part that comes next is joined, and the tokens after `.` or `->`.
#[tactic(auto, unfolding(crate::specs::Operators::joining_at))]
fn joining_at(texts: &[TokenText]) -> Option<(Joining, &[TokenText])>
    ensures value { joining_at texts.now ≡ option_map (λ x. (x.0, x.1.now)) result }
    ensures place { IfSome result (λ x. length x.1.now + 1 ≡ length texts.now) }
{
    match texts {
        [TokenText::Sign(Sign::Period), rest @ ..] => Some((Joining::Member, rest)),
        [TokenText::Sign(Sign::Arrow), rest @ ..] => Some((Joining::Located, rest)),
        _ => None,
    }
}

/// Whether an expression can begin with the first token.
#[tactic(auto, unfolding(crate::specs::Operators::begins_expression))]
fn begins_expression(texts: &[TokenText]) -> bool
    ensures { result ≡ begins_expression texts.now }
{
    match texts {
        [] => false,
        [TokenText::Sign(sign), ..] => matches!(
            sign,
            Sign::OpenParenthesis | Sign::Plus | Sign::Minus | Sign::Not
        ),
        _ => true,
    }
}

/// The longest expression at the front, after so many operators of the outermost one.
#[cycle(expression)]
#[tactic(auto, unfolding(crate::specs::Reading::expression_of))]
fn expression_at<'a>(
    alloc: Global,
    levels: u32,
    operators: u32,
    at: u32,
    texts: &'a [TokenText],
) -> Result<Front<'a, Counted<Expression>>, ParseError>
    requires { at + length texts.now ≤ 200000 }
    ensures value { Gives (front_view (counted_view expression_view)) result
        (expression_of (operand_at levels) operators at texts.now) }
    ensures place { IfOk result (Advances at texts.now) }
{
    let first = operand_at(alloc, levels, operators, at, texts)?;
    infix_from(
        alloc,
        levels,
        0,
        first.value.tree,
        first.value.count,
        first.next,
        first.rest,
    )
}

/// Goes on after the expression `left` as long as infix operators of level `min` or more come. It is a loop, so that
/// the number of operators is no depth of calls; a right operand is read with a greater `min`.
#[cycle(expression)]
#[tactic(auto)]
fn infix_from<'a>(
    alloc: Global,
    levels: u32,
    min: u32,
    left: Expression,
    operators: u32,
    at: u32,
    texts: &'a [TokenText],
) -> Result<Front<'a, Counted<Expression>>, ParseError>
    requires place { at + length texts.now ≤ 200000 }
    requires low { min < 8 }
    ensures value { (bound : ℕ) → length texts.now < bound →
        Gives (front_view (counted_view expression_view)) result
        (infix_from (operand_at levels) bound min operators (expression_view left) at texts.now) }
    ensures place { IfOk result (Continues at texts.now) }
{
    let mut sum = left;
    let mut operators = operators;
    let mut next = at;
    let mut rest = texts;
    while let Some((operator, tail)) = operator_at(min, rest) {
        let right = right_of(alloc, levels, operator, operators, next, tail)?;
        operators = right.value.count;
        sum = infix(alloc, operator, next, sum, right.value.tree)?;
        next = right.next;
        rest = right.rest;
    }
    Ok(Counted::front(sum, operators, next, rest))
}

/// After the infix operator at `at`: its right operand, which takes all that binds tighter.
#[cycle(expression)]
#[tactic(auto)]
fn right_of<'a>(
    alloc: Global,
    levels: u32,
    operator: InfixOperator,
    operators: u32,
    at: u32,
    tail: &'a [TokenText],
) -> Result<Front<'a, Counted<Expression>>, ParseError>
    requires { at + 1 + length tail.now ≤ 200000 }
    ensures value { (bound : ℕ) → length tail.now < bound →
        Gives (front_view (counted_view expression_view)) result
        (right_of (operand_at levels) bound operator operators at tail.now) }
    ensures place { IfOk result (Advances (at + 1) tail.now) }
{
    if operators >= OPERATOR_LIMIT {
        return Err(fault(Code::NestedTooDeep, at));
    }
    let operand = operand_at(alloc, levels, operators + 1, at + 1, tail)?;
    infix_from(
        alloc,
        levels,
        level_of(operator) + 1,
        operand.value.tree,
        operand.value.count,
        operand.next,
        operand.rest,
    )
}

/// An infix operator at `at` between two expressions.
#[tactic(auto)]
fn infix(
    alloc: Global,
    operator: InfixOperator,
    at: u32,
    left: Expression,
    right: Expression,
) -> Result<Expression, AllocError>
    ensures { IfOk result (λ e. expression_view e ≡ Infix operator at (expression_view left) (expression_view right)) }
{
    Ok(Expression::Infix {
        operator,
        at,
        left: Box::new(alloc, left)?,
        right: Box::new(alloc, right)?,
    })
}

/// An operand, inside which so many levels may still be opened.
#[cycle(expression)]
#[tactic(auto, unfolding(crate::specs::Reading::operand_of))]
fn operand_at<'a>(
    alloc: Global,
    levels: u32,
    operators: u32,
    at: u32,
    texts: &'a [TokenText],
) -> Result<Front<'a, Counted<Expression>>, ParseError>
    requires { at + length texts.now ≤ 200000 }
    ensures value { Gives (front_view (counted_view expression_view)) result
        (operand_at levels operators at texts.now) }
    ensures place { IfOk result (Advances at texts.now) }
{
    match texts {
        [TokenText::Word(_), ..] => {
            let reference = reference_of(alloc, false, levels, operators, at, texts)?;
            Ok(Counted::front(
                Expression::Reference(reference.value.tree),
                reference.value.count,
                reference.next,
                reference.rest,
            ))
        }
        [TokenText::Sign(Sign::OpenParenthesis), rest @ ..] => {
            parenthesis_of(alloc, levels, operators, at, rest)
        }
        [TokenText::Sign(Sign::Plus), rest @ ..] => {
            prefix_of(alloc, levels, PrefixOperator::Plus, operators, at, rest)
        }
        [TokenText::Sign(Sign::Minus), rest @ ..] => {
            prefix_of(alloc, levels, PrefixOperator::Minus, operators, at, rest)
        }
        [TokenText::Sign(Sign::Not), rest @ ..] => {
            prefix_of(alloc, levels, PrefixOperator::Not, operators, at, rest)
        }
        _ => constant_at(alloc, operators, at, texts),
    }
}

/// A constant.
#[tactic(auto, unfolding(crate::specs::Reading::constant_at))]
fn constant_at<'a>(
    alloc: Global,
    operators: u32,
    at: u32,
    texts: &'a [TokenText],
) -> Result<Front<'a, Counted<Expression>>, ParseError>
    requires { at + length texts.now ≤ 200000 }
    ensures value { Gives (front_view (counted_view expression_view)) result (constant_at operators at texts.now) }
    ensures place { IfOk result (Advances at texts.now) }
{
    let [first, rest @ ..] = texts else {
        return Err(misfit(Code::ExpressionExpected, at, texts));
    };
    let value = match first {
        TokenText::Decimal { value, digits } => ConstantValue::Decimal {
            value: *value,
            digits: *digits,
        },
        TokenText::Binary { value, digits } => ConstantValue::Binary {
            value: *value,
            digits: *digits,
        },
        TokenText::Characters(string) => ConstantValue::Characters(string.copy(alloc)?),
        TokenText::Bits(string) => ConstantValue::Bits(string.copy(alloc)?),
        _ => return Err(misfit(Code::ExpressionExpected, at, texts)),
    };
    Ok(Counted::front(Expression::Constant { at, value }, operators, at + 1, rest))
}

/// A prefix operator at `at`, which opens a level, and its operand.
#[cycle(expression)]
#[tactic(auto, unfolding(crate::specs::Reading::prefix_of, crate::specs::Reading::inside))]
fn prefix_of<'a>(
    alloc: Global,
    levels: u32,
    operator: PrefixOperator,
    operators: u32,
    at: u32,
    rest: &'a [TokenText],
) -> Result<Front<'a, Counted<Expression>>, ParseError>
    requires { at + 1 + length rest.now ≤ 200000 }
    ensures value { Gives (front_view (counted_view expression_view)) result
        (prefix_of (inside levels) operator operators at rest.now) }
    ensures place { IfOk result (Advances (at + 1) rest.now) }
{
    if operators >= OPERATOR_LIMIT || levels == 0 {
        return Err(fault(Code::NestedTooDeep, at));
    }
    let operand = operand_at(alloc, levels - 1, operators + 1, at + 1, rest)?;
    let operators = operand.value.count;
    let inner = Box::new(alloc, operand.value.tree)?;
    Ok(Counted::front(
        Expression::Prefix {
            operator,
            at,
            operand: inner,
        },
        operators,
        operand.next,
        operand.rest,
    ))
}

/// After the `(` at `at`, which opens a level: an expression and `)`.
#[cycle(expression)]
#[tactic(auto, unfolding(crate::specs::Reading::parenthesis_of, crate::specs::Reading::inside))]
fn parenthesis_of<'a>(
    alloc: Global,
    levels: u32,
    operators: u32,
    at: u32,
    rest: &'a [TokenText],
) -> Result<Front<'a, Counted<Expression>>, ParseError>
    requires { at + 1 + length rest.now ≤ 200000 }
    ensures value { Gives (front_view (counted_view expression_view)) result
        (parenthesis_of (inside levels) operators at rest.now) }
    ensures place { IfOk result (Advances (at + 1) rest.now) }
{
    if levels == 0 {
        return Err(fault(Code::NestedTooDeep, at));
    }
    let read = expression_at(alloc, levels - 1, operators, at + 1, rest)?;
    let tail = match close_taken(read.next, read.rest) {
        Ok(tail) => tail,
        Err(error) => {
            drop(read);
            return Err(error);
        }
    };
    let operators = read.value.count;
    let inner = Box::new(alloc, read.value.tree)?;
    Ok(Counted::front(
        Expression::Parenthesized { at, inner },
        operators,
        read.next + 1,
        tail,
    ))
}

/// A reference. Where it is no part of an expression, each of its arguments is an outermost expression.
#[cycle(expression)]
#[tactic(auto, unfolding(crate::specs::Reading::reference_of))]
fn reference_of<'a>(
    alloc: Global,
    outermost: bool,
    levels: u32,
    operators: u32,
    at: u32,
    texts: &'a [TokenText],
) -> Result<Front<'a, Counted<Reference>>, ParseError>
    requires { at + length texts.now ≤ 200000 }
    ensures value { Gives (front_view (counted_view reference_view)) result
        (reference_of (option_map (argument_of outermost) (inside levels)) operators at texts.now) }
    ensures place { IfOk result (Advances at texts.now) }
{
    let Some(named) = name_first(texts) else {
        return Err(misfit(Code::NameExpected, at, texts));
    };
    let (name, rest) = named;
    let name = Identifier { name, at };
    let list = arguments_at(alloc, outermost, levels, operators, at + 1, rest)?;
    let first = Part {
        name,
        arguments: list.value.tree,
    };
    let joined = joined_from(
        alloc,
        outermost,
        levels,
        list.value.count,
        list.next,
        list.rest,
    )?;
    Ok(Counted::front(
        Reference {
            first,
            joined: joined.value.tree,
        },
        joined.value.count,
        joined.next,
        joined.rest,
    ))
}

/// Parts of a reference, as long as `.` or `->` comes.
#[cycle(expression)]
#[tactic(auto)]
fn joined_from<'a>(
    alloc: Global,
    outermost: bool,
    levels: u32,
    operators: u32,
    at: u32,
    texts: &'a [TokenText],
) -> Result<Front<'a, Counted<Vec<JoinedPart>>>, ParseError>
    requires { at + length texts.now ≤ 200000 }
    ensures value { (bound : ℕ) → length texts.now < bound →
        Gives (front_view (counted_view (λ v. joined_view v.items))) result
        (joined_from (option_map (argument_of outermost) (inside levels)) bound operators at texts.now) }
    ensures place { IfOk result (Continues at texts.now) }
{
    let mut parts = Vec::new(alloc);
    let mut operators = operators;
    let mut next = at;
    let mut rest = texts;
    while let Some((joining, tail)) = joining_at(rest) {
        let at = next + 1;
        let Some(named) = name_first(tail) else {
            return Err(misfit(Code::NameExpected, at, tail));
        };
        let (name, more) = named;
        let name = Identifier { name, at };
        let list = arguments_at(alloc, outermost, levels, operators, at + 1, more)?;
        operators = list.value.count;
        let part = Part {
            name,
            arguments: list.value.tree,
        };
        parts.push(JoinedPart { joining, part })?;
        next = list.next;
        rest = list.rest;
    }
    Ok(Counted::front(parts, operators, next, rest))
}

/// What stands in parentheses after a name, if there are some.
#[cycle(expression)]
#[tactic(auto, unfolding(crate::specs::Reading::arguments_at, crate::specs::Reading::inside))]
fn arguments_at<'a>(
    alloc: Global,
    outermost: bool,
    levels: u32,
    operators: u32,
    at: u32,
    texts: &'a [TokenText],
) -> Result<Front<'a, Counted<Option<Vec<Expression>>>>, ParseError>
    requires { at + length texts.now ≤ 200000 }
    ensures value { Gives (front_view (counted_view arguments_view)) result
        (arguments_at (option_map (argument_of outermost) (inside levels)) operators at texts.now) }
    ensures place { IfOk result (Continues at texts.now) }
{
    let [TokenText::Sign(Sign::OpenParenthesis), rest @ ..] = texts else {
        return Ok(Counted::front(None, operators, at, texts));
    };
    if levels == 0 {
        return Err(fault(Code::NestedTooDeep, at));
    }
    let list = list_at(alloc, outermost, levels - 1, operators, at + 1, rest)?;
    Ok(Counted::front(
        Some(list.value.tree),
        list.value.count,
        list.next,
        list.rest,
    ))
}

/// After `(`: expressions and `)`, or `)` alone.
#[cycle(expression)]
#[tactic(auto, unfolding(crate::specs::Reading::list_at))]
fn list_at<'a>(
    alloc: Global,
    outermost: bool,
    levels: u32,
    operators: u32,
    at: u32,
    texts: &'a [TokenText],
) -> Result<Front<'a, Counted<Vec<Expression>>>, ParseError>
    requires { at + length texts.now ≤ 200000 }
    ensures value { Gives (front_view (counted_view (λ v. expressions_view v.items))) result
        (list_at (argument_of outermost (operand_at levels)) operators at texts.now) }
    ensures place { IfOk result (Advances at texts.now) }
{
    if begins_expression(texts) {
        return listed_at(alloc, outermost, levels, operators, at, texts);
    }
    let tail = close_taken(at, texts)?;
    Ok(Counted::front(Vec::new(alloc), operators, at + 1, tail))
}

/// One expression or more, with commas between, and `)`.
#[cycle(expression)]
#[tactic(auto)]
fn listed_at<'a>(
    alloc: Global,
    outermost: bool,
    levels: u32,
    operators: u32,
    at: u32,
    texts: &'a [TokenText],
) -> Result<Front<'a, Counted<Vec<Expression>>>, ParseError>
    requires { at + length texts.now ≤ 200000 }
    ensures value { Gives (front_view (counted_view (λ v. expressions_view v.items))) result
        (listed_at (argument_of outermost (operand_at levels)) operators at texts.now) }
    ensures place { IfOk result (Advances at texts.now) }
{
    let first = argument_at(alloc, outermost, levels, operators, at, texts)?;
    let mut list = Vec::new(alloc);
    let mut operators = first.value.count;
    list.push(first.value.tree)?;
    let mut next = first.next;
    let mut rest = first.rest;
    while let Some(tail) = after_comma(rest) {
        let one = argument_at(alloc, outermost, levels, operators, next + 1, tail)?;
        operators = one.value.count;
        list.push(one.value.tree)?;
        next = one.next;
        rest = one.rest;
    }
    let tail = close_taken(next, rest)?;
    Ok(Counted::front(list, operators, next + 1, tail))
}

/// An argument: an outermost expression, or a part of one.
#[cycle(expression)]
#[tactic(auto)]
fn argument_at<'a>(
    alloc: Global,
    outermost: bool,
    levels: u32,
    operators: u32,
    at: u32,
    texts: &'a [TokenText],
) -> Result<Front<'a, Counted<Expression>>, ParseError>
    requires { at + length texts.now ≤ 200000 }
    ensures value { Gives (front_view (counted_view expression_view)) result
        (argument_of outermost (operand_at levels) operators at texts.now) }
    ensures place { IfOk result (Advances at texts.now) }
{
    if !outermost {
        return expression_at(alloc, levels, operators, at, texts);
    }
    let argument = expression_at(alloc, levels, 0, at, texts)?;
    Ok(Counted::front(argument.value.tree, operators, argument.next, argument.rest))
}

/// An outermost expression: the longest at the front. The tokens are counted from 0, of which `at` is the first here;
/// so many levels of nesting may still be opened. P3, P4 and P6 stand at the first token that cannot continue, P9 at
/// the last token of a text that ends, and P16 at the token that opens one level too many or is one operator too many
/// (own).
#[tactic(auto, unfolding(crate::specs::Reading::expression_at))]
pub fn outermost_expression_at<'a>(
    alloc: Global,
    levels: u32,
    at: u32,
    texts: &'a [TokenText],
) -> Result<Front<'a, Counted<Expression>>, ParseError>
    requires { at + length texts.now ≤ 200000 }
    ensures value { Gives (front_view (counted_view expression_view)) result (expression_at levels 0 at texts.now) }
    ensures place { IfOk result (Advances at texts.now) }
{
    expression_at(alloc, levels, 0, at, texts)
}

/// A reference that is no part of an expression: the longest at the front. Each of its arguments is an outermost
/// expression.
#[tactic(auto, unfolding(crate::specs::Reading::reference_at))]
pub fn reference_at<'a>(
    alloc: Global,
    levels: u32,
    at: u32,
    texts: &'a [TokenText],
) -> Result<Front<'a, Counted<Reference>>, ParseError>
    requires { at + length texts.now ≤ 200000 }
    ensures value { Gives (front_view (counted_view reference_view)) result (reference_at levels at texts.now) }
    ensures place { IfOk result (Advances at texts.now) }
{
    reference_of(alloc, true, levels, 0, at, texts)
}

/// What stands in parentheses after a name that is no part of an expression, if there are some: each argument is an
/// outermost expression. `F()` has an empty list, `F` has none.
#[tactic(auto)]
pub fn outermost_arguments_at<'a>(
    alloc: Global,
    levels: u32,
    at: u32,
    texts: &'a [TokenText],
) -> Result<Front<'a, Counted<Option<Vec<Expression>>>>, ParseError>
    requires { at + length texts.now ≤ 200000 }
    ensures value { Gives (front_view (counted_view arguments_view)) result
        (arguments_at (option_map (argument_of true) (inside levels)) 0 at texts.now) }
    ensures place { IfOk result (Continues at texts.now) }
{
    arguments_at(alloc, true, levels, 0, at, texts)
}
