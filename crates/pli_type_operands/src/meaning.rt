//! What references and expressions are.
ghost use Rattle.std.specs.Prelude.{◌≡◌};
ghost use Rattle.pli_base.specs.views.SyntaxView.{expression_view};
ghost use Rattle.pli_type_rules.specs.FunctionCalls.{area_of, meant_as, meant_by};
ghost use Rattle.pli_type_rules.specs.Typing.{first_token, one_value};
ghost use Rattle.pli_type.specs.views.ValueView.{value_view};
ghost use Rattle.pli_base.specs.answers.FailureAnswers.{Gives};
ghost use Rattle.pli_type_operands.specs.views.TypingView.{denoted_view, meant_view, referent_view};

use crate::answer::TypeError;
use crate::token::first_token;
use pli_base::syntax::Expression;
use pli_base::{Code, fault};
use pli_map::TypeRef;
use pli_type::{TypedValue, empty_value};
use pli_type_rules::{Beginning, ExpressionType, area_meant};
use pli_type_tree::{TypedExpression, TypedReference};

/// A variable or a part of one, a scalar, an area or an aggregate, with its type.
#[derive(Drop)]
pub struct Referent<'a> {
    pub reference: TypedReference,
    pub description: TypeRef<'a>,
    /// Whether it is, or is in, a parameter.
    pub is_parameter: bool,
    /// The area that OFFSET in its declaration names, seen from where it is used.
    pub area: Option<Beginning>,
}

/// What an expression is.
#[derive(Drop)]
pub enum ExpressionMeaning<'a> {
    /// One value.
    Value(TypedValue),
    /// A whole aggregate.
    Aggregate(Referent<'a>),
}

/// What an expression denotes.
#[derive(Drop)]
pub enum Denoted<'a> {
    /// A variable or a part of one, where it is a reference to that.
    Variable(Referent<'a>),
    /// Any other value.
    Result(TypedValue),
    /// EMPTY, where it is that alone.
    Empty,
}

impl<'a> Referent<'a> {
    /// What a variable or a part of one is as an expression: a scalar has a value.
    pub(crate) fn as_expression(self) -> ExpressionMeaning<'a>
        ensures { meant_view result ≡ meant_by (referent_view self.entry) }
    {
        match ExpressionType::held(self.description, self.area) {
            None => ExpressionMeaning::Aggregate(self),
            Some(kind) => ExpressionMeaning::Value(TypedValue {
                expression: TypedExpression::Held(self.reference),
                kind,
            }),
        }
    }
}

impl<'a> Denoted<'a> {
    /// What it is: one value, or a whole aggregate.
    pub fn as_expression(self) -> ExpressionMeaning<'a>
        ensures { meant_view result ≡ meant_as (denoted_view self.entry) }
    {
        match self {
            Denoted::Variable(referent) => referent.as_expression(),
            Denoted::Result(value) => ExpressionMeaning::Value(value),
            Denoted::Empty => ExpressionMeaning::Value(empty_value()),
        }
    }

    /// Where the area begins, if it is the reference of one.
    pub fn area(&self) -> Option<Beginning>
        ensures { result ≡ area_of (denoted_view self.now) }
    {
        match self {
            Denoted::Variable(referent) => area_meant(&referent.reference, referent.description),
            Denoted::Result(_) | Denoted::Empty => None,
        }
    }
}

impl<'a> ExpressionMeaning<'a> {
    /// The one value that an expression is: an aggregate in its place is T2 at the expression's first token.
    pub fn one_value(self, expression: &Expression) -> Result<TypedValue, TypeError>
        ensures { Gives value_view result (one_value (first_token (expression_view expression.now))
            (meant_view self.entry)) }
    {
        match self {
            ExpressionMeaning::Value(value) => Ok(value),
            ExpressionMeaning::Aggregate(_) => {
                Err(fault(Code::AggregateNotAllowedHere, first_token(expression)))
            }
        }
    }
}
