//! The rules of types: which expressions, references, statements and units are typed, as what, and which fault each
//! other one has; with the types of expressions, and where variables begin.
#![tactic(auto)]

mod beginning;
mod expression_type;

pub use beginning::{Beginning, area_meant, is_area_type};
pub use expression_type::{
    ExpressionType, binary_digits, precisions, product_precision, sum_precision,
};
