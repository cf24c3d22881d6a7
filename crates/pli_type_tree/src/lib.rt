//! Typed trees: a unit with what each name means, and with the type of each part worked out.
#![tactic(auto)]

mod conversion;
mod expression;
mod iteration;
mod statement;
mod template;
mod unit;

pub use conversion::Conversion;
pub use expression::{
    Callee, Root, Stride, TypedArgument, TypedExpression, TypedOperation, TypedReference,
    TypedSubscript,
};
pub use iteration::{Iteration, TypedRange};
pub use statement::{AllocatedItem, BlockHead, Form, FreedItem, TypedStatement};
pub use template::{InitialScalar, Template, VariableGroup};
pub use unit::{GlobalGroup, Signature, TypedProcedure, TypedUnit};
