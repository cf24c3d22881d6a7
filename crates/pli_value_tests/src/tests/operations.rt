use pli_operation::{Operation, Relation};
use std::test::*;

/// Whether operations take as many operands as they should, and equal themselves alone.
fn are_told() -> bool {
    Operation::Negate.arity() == 1
        && Operation::Compare(Relation::AtMost).arity() == 2
        && Operation::Substring.arity() == 3
        && Operation::Divide { precision: 15 } == Operation::Divide { precision: 15 }
        && Operation::Divide { precision: 15 } != Operation::Divide { precision: 16 }
}

#[test]
fn operations(rt: HostRuntime) {
    assert!(rt; are_told());
}
