//! What stands between arrows of a reference.
ghost use Rattle.std.specs.Prelude.{◌≡◌, [], false, map, IfOk, Ok};
ghost use Rattle.pli_base.specs.Syntax.{Absent};
ghost use Rattle.pli_base.specs.views.SyntaxView.{joined_view};
ghost use Rattle.pli_type_rules.specs.Names as names;
ghost use Rattle.pli_type_rules.specs.Typing as typing;
ghost use Rattle.pli_base.specs.answers.FailureAnswers.{Gives};
ghost use Rattle.pli_type_operands.specs.views.TypingView.{denoted_view, role_view};
ghost use Rattle.pli_type_expression.specs.views.SegmentView.{locator_view, of_name, segment_view};
ghost use Rattle.pli_type.specs.views.ValueView.{value_view};
ghost use Rattle.pli_type_expression.specs.Segments.{is_empty_function, is_null_function, means_one};
ghost use Rattle.pli_type_names.specs.SymbolMeaning.{IsMeantAs};
ghost use Rattle.pli_type_names.specs.UnitNaming.{naming_in};
ghost use Rattle.pli_type_tree.specs.views.TypedView.{expression_view};

use crate::locator::LocatorBefore;
use crate::variable::variable_meant;
use pli_base::syntax::JoinedPart;
use pli_base::{Code, fault};
use pli_declare::BuiltInFunction;
use pli_type::{TypedValue, null_value};
use pli_type_names::{NamedAs, Naming};
use pli_type_operands::{Denoted, Role, TypeError};
use pli_type_tree::TypedExpression;
use std::alloc::{AllocError, Global};

/// What stands between arrows, so far.
#[derive(Drop)]
pub(crate) enum Segment {
    /// The name at a token, of a variable or of what is none, with what stands in front of it, and the subscripts
    /// after it and after the members that are joined to it.
    Named {
        locator: LocatorBefore,
        at: u32,
        subscripts: Vec<TypedExpression>,
    },
    /// What a function gives.
    Function(TypedValue),
    /// EMPTY.
    Empty,
}

/// Whether parentheses after a reference's first name are those of a call: where it stands alone, and a value is
/// wanted.
#[tactic(auto, using(crate::proofs::MeaningLemmas::call_of_value, crate::proofs::MeaningLemmas::call_of_argument))]
pub(crate) fn is_call(role: Role, joined: &[JoinedPart]) -> bool
    ensures { result ≡ typing.is_call (role_view role) false (joined_view joined.now) }
{
    match role {
        Role::Value | Role::Argument => joined.is_empty(),
        Role::Target | Role::Locator => false,
    }
}

/// Whether a name that means this means NULL.
#[tactic(auto, using(crate::proofs::MeaningLemmas::function_is_such, crate::proofs::MeaningLemmas::variable_is_none_such, crate::proofs::MeaningLemmas::procedure_is_none_such, crate::proofs::MeaningLemmas::label_is_none_such, crate::proofs::MeaningLemmas::untyped_is_none_such))]
fn is_null(meant: NamedAs<'_, '_>) -> bool
    ensures { (m : names.NamedAs) → IsMeantAs meant.entry m → result ≡ means_one is_null_function m }
{
    match meant {
        NamedAs::Function(function) => function == BuiltInFunction::Null,
        NamedAs::Variable(_) | NamedAs::Procedure(_) | NamedAs::Label(_) | NamedAs::Untyped =>
            false,
    }
}

/// Whether a name that means this means EMPTY.
#[tactic(auto, using(crate::proofs::MeaningLemmas::function_is_such, crate::proofs::MeaningLemmas::variable_is_none_such, crate::proofs::MeaningLemmas::procedure_is_none_such, crate::proofs::MeaningLemmas::label_is_none_such, crate::proofs::MeaningLemmas::untyped_is_none_such))]
fn is_empty(meant: NamedAs<'_, '_>) -> bool
    ensures { (m : names.NamedAs) → IsMeantAs meant.entry m → result ≡ means_one is_empty_function m }
{
    match meant {
        NamedAs::Function(function) => function == BuiltInFunction::Empty,
        NamedAs::Variable(_) | NamedAs::Procedure(_) | NamedAs::Label(_) | NamedAs::Untyped =>
            false,
    }
}

/// A segment that begins with a name without parentheses: NULL and EMPTY are values where one is wanted.
#[tactic(auto, using(crate::proofs::MeaningLemmas::begun_as_null, crate::proofs::MeaningLemmas::begun_as_empty, crate::proofs::MeaningLemmas::begun_uncalled, crate::proofs::MeaningLemmas::begun_as_name))]
pub(crate) fn begun_alone(
    alloc: Global,
    naming: &Naming<'_>,
    call: bool,
    locator: LocatorBefore,
    at: u32,
) -> Segment
    ensures { Ok (segment_view (naming_in naming.now) result)
        ≡ typing.begun (naming_in naming.now) ((naming_in naming.now).meaning at) call
        (locator_view locator) at Absent }
{
    if !call {
        return Segment::named(alloc, locator, at);
    }
    let meant = naming.meaning(at);
    if is_null(meant) {
        drop(locator);
        return Segment::Function(null_value());
    }
    if is_empty(meant) {
        drop(locator);
        Segment::Empty
    } else {
        Segment::named(alloc, locator, at)
    }
}

impl Segment {
    /// A name without subscripts.
    pub(crate) fn named(alloc: Global, locator: LocatorBefore, at: u32) -> Segment
        ensures { (n : names.Naming) → segment_view n result ≡ of_name (n.meaning at) (locator_view locator) at [] }
    {
        Segment::Named {
            locator,
            at,
            subscripts: Vec::new(alloc),
        }
    }

    /// What a built-in function gives.
    pub(crate) fn given(function: BuiltInFunction, value: TypedValue) -> Segment
        ensures { (n : names.Naming) → segment_view n result ≡ typing.given_by function (value_view value) }
    {
        match function {
            BuiltInFunction::Empty => {
                drop(value);
                Segment::Empty
            }
            _ => Segment::Function(value),
        }
    }

    /// The segment with further subscripts; those after what is no variable say nothing.
    pub(crate) fn with_more(self, more: Vec<TypedExpression>) -> Result<Segment, AllocError>
        ensures { IfOk result (λ s. (n : names.Naming)
            → segment_view n s ≡ typing.with_more (segment_view n self) (map expression_view more.items)) }
    {
        match self {
            Segment::Named {
                locator,
                at,
                mut subscripts,
            } => {
                let mut more = more;
                subscripts.append(&mut more)?;
                Ok(Segment::Named {
                    locator,
                    at,
                    subscripts,
                })
            }
            Segment::Function(value) => Ok(Segment::Function(value)),
            Segment::Empty => Ok(Segment::Empty),
        }
    }

    /// What a reference denotes that ends here: T1 where a variable must stand.
    pub(crate) fn ended<'a>(
        self,
        alloc: Global,
        naming: &Naming<'a>,
        role: Role,
    ) -> Result<Denoted<'a>, TypeError>
        ensures { Gives denoted_view result (typing.ended (role_view role) (segment_view (naming_in naming.now) self)) }
    {
        match self {
            Segment::Named {
                locator,
                at,
                subscripts,
            } => match naming.meaning(at) {
                NamedAs::Variable(variable) => {
                    let referent = variable_meant(alloc, role, locator, at, variable, subscripts)?;
                    Ok(Denoted::Variable(referent))
                }
                NamedAs::Function(_)
                | NamedAs::Procedure(_)
                | NamedAs::Label(_)
                | NamedAs::Untyped => Err(fault(Code::NotAVariable, at)),
            },
            Segment::Function(value) => Ok(Denoted::Result(value)),
            Segment::Empty => Ok(Denoted::Empty),
        }
    }
}
