//! The parser of a unit.
ghost use Rattle.std.specs.Prelude.{◌≡◌, ◌≤◌, ◌+◌, length};
ghost use Rattle.pli_base.specs.Reading.{misplaced};
ghost use Rattle.pli_base.specs.Words.{is_procedure};
ghost use Rattle.pli_base.specs.views.StatementView.{unit_view};
ghost use Rattle.pli_parse_statement.specs.StatementReading.{external_at, unit_of};
ghost use Rattle.pli_base.specs.answers.FailureAnswers.{Gives};

use crate::reader::{last_place, list_in};
use pli_base::statement::Procedure;
use pli_base::syntax::Identifier;
use pli_base::{Code, Name, ParseError, Sign, TokenText, fault};
use pli_parse_statement::{
    Context, Listing, StatementStanding, has_semicolon, heading_at, is_name,
};
use std::alloc::Global;

/// The greatest number of levels that may be opened (own): the unit is the first.
const NESTING_LIMIT: u32 = 64;

/// Whether the name is PROCEDURE or PROC.
fn is_procedure(name: &Name) -> bool
    ensures { result ≡ is_procedure name.now }
{
    is_name(name, b"PROCEDURE") || is_name(name, b"PROC")
}

/// The first of the tokens `name : PROCEDURE` that cannot stand there, of those that are there; of no tokens the first.
#[tactic(auto, unfolding(pli_base::specs::Reading::misplaced))]
fn misplaced(texts: &[TokenText]) -> Option<u32>
    ensures { result ≡ misplaced texts.now }
{
    match texts {
        [TokenText::Word(_)] | [TokenText::Word(_), TokenText::Sign(Sign::Colon)] => None,
        [
            TokenText::Word(_),
            TokenText::Sign(Sign::Colon),
            TokenText::Word(word),
            ..
        ] if is_procedure(word) => { None }
        [TokenText::Word(_), TokenText::Sign(Sign::Colon), ..] => Some(2),
        [TokenText::Word(_), ..] => Some(1),
        _ => Some(0),
    }
}

/// The external procedure of this name, after PROCEDURE.
#[tactic(auto, unfolding(pli_parse_statement::specs::StatementReading::external_at, pli_parse_statement::specs::StatementReading::inside_of), using(pli_base::specs::laws::StatementLaws::unit_made))]
fn external_at(
    alloc: Global,
    name: &Identifier,
    texts: &[TokenText],
) -> Result<Procedure, ParseError>
    requires { 3 + length texts.now ≤ 200000 }
    ensures { Gives unit_view result (external_at name.now texts.now) }
{
    let heading = heading_at(alloc, 3, texts)?;
    let context = Context {
        standing: StatementStanding::InBlock,
        in_on_unit: false,
    };
    let label = Some(*name);
    let list = list_in(
        alloc,
        NESTING_LIMIT - 1,
        context,
        &label,
        heading.next,
        2,
        heading.rest,
    )?;
    if !list.rest.is_empty() {
        return Err(fault(Code::TextAfterEnd, list.next));
    }
    let Listing { statements, end } = list.value.tree;
    Ok(Procedure {
        name: *name,
        number: 1,
        parameters: heading.value.parameters,
        options: heading.value.options,
        statements,
        end,
    })
}

/// Reads the tokens of a unit, which must be one external procedure: its tree, or its one fault. First of all, `name :
/// PROCEDURE` must stand. The time is linear in the number of tokens, and calls nest only as statements and parentheses
/// do, at most 64 deep.
#[tactic(auto, unfolding(pli_parse_statement::specs::StatementReading::unit_of))]
pub fn parse(alloc: Global, texts: &[TokenText]) -> Result<Procedure, ParseError>
    requires { length texts.now ≤ 200000 }
    ensures { Gives unit_view result (unit_of texts.now) }
{
    if let Some(place) = misplaced(texts) {
        return Err(fault(Code::NoProcedure, place));
    }
    if !has_semicolon(texts) {
        return Err(fault(Code::EndMissing, last_place(0, texts)));
    }
    let [
        TokenText::Word(name),
        TokenText::Sign(Sign::Colon),
        _,
        rest @ ..,
    ] = texts
    else {
        return Err(fault(Code::NoProcedure, 0));
    };
    let name = Identifier { name: *name, at: 0 };
    external_at(alloc, &name, rest)
}
