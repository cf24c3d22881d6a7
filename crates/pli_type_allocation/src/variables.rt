//! References to variables in ALLOCATE and FREE.
ghost use Rattle.pli_base.specs.answers.FailureAnswers.{Gives};
ghost use Rattle.pli_type_rules.specs.AllocationTyping as spec;
ghost use Rattle.pli_type_operands.specs.views.TypingView.{denoted_view, referent_view};

use pli_base::{Code, fault};
use pli_type_operands::{Denoted, Referent, TypeError};

/// A variable or a part of one: what a function gives, EMPTY too, is T1 at the token `at`.
pub(crate) fn only_variable<'a>(denoted: Denoted<'a>, at: u32) -> Result<Referent<'a>, TypeError>
    ensures { Gives referent_view result (spec.only_variable at (denoted_view denoted.entry)) }
{
    match denoted {
        Denoted::Variable(referent) => Ok(referent),
        Denoted::Result(value) => {
            drop(value);
            Err(fault(Code::NotAVariable, at))
        }
        Denoted::Empty => Err(fault(Code::NotAVariable, at)),
    }
}
