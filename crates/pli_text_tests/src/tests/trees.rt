ghost use Rattle.std.specs.Prelude.{◌≤◌, length};

use crate::tests::name;
use crate::tests::tokens::tokens_of;
use pli_base::declaration::Item;
use pli_base::statement::Condition;
use pli_base::syntax::{Expression, InfixOperator};
use pli_base::{Name, TokenText};
use pli_copy::Copied;
use pli_declare::is_built_in;
use pli_parse_declaration::declaration_at;
use pli_parse_expression::{is_assignment, outermost_expression_at, reference_at};
use pli_parse_statement::{Keyword, named_condition, statement_keyword};
use std::alloc::Global;
use std::process::Abort;
use std::test::*;

/// Whether a tree is a sum.
fn is_sum(tree: &Expression) -> bool {
    matches!(
        tree,
        Expression::Infix {
            operator: InfixOperator::Add,
            ..
        }
    )
}

/// Whether the expression at the front of tokens is a sum that ends here.
fn ends_at(rt: &impl Abort, alloc: Global, tokens: &[TokenText], end: u32) -> bool
    requires { length tokens.now ≤ 200000 }
{
    let front = outermost_expression_at(alloc, 64, 0, tokens)
        .ok()
        .expect(rt, "an expression");
    front.next == end && is_sum(&front.value.tree)
}

#[test]
fn expressions(rt: HostRuntime) {
    let tokens = tokens_of(&rt, rt.alloc(), "- A + B * F(1) ;");
    assert!(rt; ends_at(&rt, rt.alloc(), &tokens, 9));
}

/// Whether the reference at the front of tokens has two parts and ends here.
fn refers(rt: &impl Abort, alloc: Global, tokens: &[TokenText], end: u32) -> bool
    requires { length tokens.now ≤ 200000 }
{
    let front = reference_at(alloc, 64, 0, tokens)
        .ok()
        .expect(rt, "a reference");
    front.next == end && front.value.tree.joined.len() == 1
}

#[test]
fn references(rt: HostRuntime) {
    let tokens = tokens_of(&rt, rt.alloc(), "P -> X(A + 1) = 1");
    let refers = refers(&rt, rt.alloc(), &tokens, 8);
    let is = is_assignment(rt.alloc(), &tokens).expect(&rt, "memory");
    drop(tokens);
    assert!(rt; refers && is);
}

/// Whether an item has two names of level 2, and so has its copy.
fn has_two_names(rt: &impl Abort, alloc: Global, item: &Item) -> bool {
    let copy = item.copy(alloc).expect(rt, "memory");
    item.level == Some(2) && copy.level == Some(2) && copy.names.len() == 2
}

/// Whether a declaration has two items, of which the second has two names.
fn are_declared(rt: &impl Abort, alloc: Global, tokens: &[TokenText]) -> bool
    requires { length tokens.now ≤ 200000 }
{
    let read = declaration_at(alloc, 0, tokens).ok().expect(rt, "items");
    match read.value.as_slice() {
        [_, item] => has_two_names(rt, alloc, item),
        _ => false,
    }
}

#[test]
fn declarations(rt: HostRuntime) {
    let tokens = tokens_of(&rt, rt.alloc(), "1 S, 2 (X, Y) FIXED BIN;");
    assert!(rt; are_declared(&rt, rt.alloc(), &tokens));
}

/// Whether words are keywords and conditions where they should be.
fn are_words(declare: Name, then: Name, condition: Name) -> bool {
    matches!(statement_keyword(&declare), Some(Keyword::Declare))
        && statement_keyword(&then).is_none()
        && matches!(named_condition(&condition), Some(Condition::ZeroDivide))
        && named_condition(&then).is_none()
        && !is_built_in(then)
}

#[test]
fn words(rt: HostRuntime) {
    assert!(rt; are_words(name(&rt, "dcl"), name(&rt, "THEN"), name(&rt, "ZDIV")));
    assert!(rt; is_built_in(name(&rt, "SUBSTR")));
}
