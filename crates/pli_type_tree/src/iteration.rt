//! Groups with a control variable (X3.74).

use crate::conversion::Conversion;
use crate::expression::{TypedExpression, TypedReference};

/// What limits or continues an iteration. Limits and steps are numbers.
#[derive(Drop)]
pub enum TypedRange {
    /// Without TO, BY and REPEAT there is one turn.
    Once,
    /// TO, and BY after it; the step is 1 where BY is absent.
    ToBy {
        to: TypedExpression,
        by: Option<TypedExpression>,
    },
    /// BY, and TO after it; no limit where TO is absent.
    ByTo {
        by: TypedExpression,
        to: Option<TypedExpression>,
    },
    /// REPEAT. Its value stands converted to the control variable.
    Repeated(TypedExpression),
    /// REPEAT of a string. Its value is then fitted to the description of the control variable's place.
    RepeatedString(TypedExpression),
}

/// `DO v = a ..`, without its list.
#[derive(Drop)]
pub struct Iteration {
    /// The control variable, a scalar.
    pub control: TypedReference,
    /// What converts a's value to the control variable; with TO or BY it converts each further number too.
    pub conversion: Conversion,
    /// a, which is not converted.
    pub start: TypedExpression,
    pub range: TypedRange,
    /// WHILE.
    pub condition: Option<TypedExpression>,
    /// The first of its temporaries, which follow one another: for a, then for TO and BY in the order of the text, or
    /// for TO and 1 where TO stands without BY.
    pub temporary: usize,
}
