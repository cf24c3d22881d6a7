//! The test for an assignment: a reference, `=` and one expression. It is one pass over the tokens, with a stack of the
//! parentheses that are open, so that no number of them is a depth of calls.
ghost use Rattle.std.specs.Prelude.{◌≡◌, IfOk, List, [], Bool};
ghost use Rattle.pli_parse_expression.specs.Assignments.{kind_of, move, operand_move, after_move, after_frame};
ghost use Rattle.pli_parse_expression.specs.Assignments.{may_end, moved, is_assignment};
ghost use Rattle.pli_parse_expression.specs.declared.assignment.Frame as frames;
ghost use Rattle.pli_parse_expression.specs.declared.assignment.State as states;
ghost use Rattle.pli_parse_expression.specs.answers.Tests.{onto, answered};

use pli_base::{Sign, TokenText};
use std::alloc::{AllocError, AllocFailed, Global};

/// What a token can be in an expression.
#[derive(Clone, Copy)]
enum TokenKind {
    Name,
    Value,
    Opens,
    Closes,
    Separates,
    Joins,
    Equal,
    /// `+` or `-`, prefix or infix.
    Sign,
    Negates,
    /// Another infix operator.
    Operates,
    Foreign,
}

/// Where the test stands.
#[derive(Clone, Copy)]
enum State {
    NameWanted,
    OperandWanted,
    /// Right after the `(` of a list: an operand or `)` must come.
    ListBegun,
    AfterName,
    AfterList,
    AfterOperand,
}

/// What the test stands in.
#[derive(Clone, Copy)]
enum Frame {
    Target,
    /// The expression after `=`.
    Whole,
    /// The parentheses of an expression.
    Group,
    /// The parentheses of a list.
    Arguments,
}

/// What a token does.
#[derive(Clone, Copy)]
enum Move {
    Stops,
    Goes(State),
    Enters(Frame, State),
    Leaves,
    Turns,
}

/// What the token can be.
fn kind_of(text: &TokenText) -> TokenKind
    ensures { result ≡ kind_of text.now }
{
    match text {
        TokenText::Word(_) => TokenKind::Name,
        TokenText::Sign(sign) => match sign {
            Sign::OpenParenthesis => TokenKind::Opens,
            Sign::CloseParenthesis => TokenKind::Closes,
            Sign::Comma => TokenKind::Separates,
            Sign::Period | Sign::Arrow => TokenKind::Joins,
            Sign::Equals => TokenKind::Equal,
            Sign::Plus | Sign::Minus => TokenKind::Sign,
            Sign::Not => TokenKind::Negates,
            Sign::Or
            | Sign::And
            | Sign::NotEqual
            | Sign::Less
            | Sign::LessOrEqual
            | Sign::Greater
            | Sign::GreaterOrEqual
            | Sign::Concatenate
            | Sign::Times => TokenKind::Operates,
            Sign::Colon | Sign::Semicolon | Sign::Percent => TokenKind::Foreign,
        },
        _ => TokenKind::Value,
    }
}

/// What a token does where an operand must come.
fn operand_move(kind: TokenKind) -> Move
    ensures { result ≡ operand_move kind }
{
    match kind {
        TokenKind::Name => Move::Goes(State::AfterName),
        TokenKind::Value => Move::Goes(State::AfterOperand),
        TokenKind::Opens => Move::Enters(Frame::Group, State::OperandWanted),
        TokenKind::Sign | TokenKind::Negates => Move::Goes(State::OperandWanted),
        _ => Move::Stops,
    }
}

/// What a token does after an operand that nothing joins any more.
fn after_move(frame: Frame, kind: TokenKind) -> Move
    ensures { result ≡ after_move frame kind }
{
    match (frame, kind) {
        (Frame::Target, TokenKind::Equal) => Move::Turns,
        (Frame::Target, _) => Move::Stops,
        (Frame::Group | Frame::Arguments, TokenKind::Closes) => Move::Leaves,
        (Frame::Arguments, TokenKind::Separates) => Move::Goes(State::OperandWanted),
        (_, TokenKind::Equal | TokenKind::Sign | TokenKind::Operates) => Move::Goes(
            State::OperandWanted,
        ),
        _ => Move::Stops,
    }
}

/// What a token does.
fn movement(state: State, frame: Frame, kind: TokenKind) -> Move
    ensures { result ≡ move state frame kind }
{
    match (state, kind) {
        (State::NameWanted, TokenKind::Name) => Move::Goes(State::AfterName),
        (State::NameWanted, _) => Move::Stops,
        (State::ListBegun, TokenKind::Closes) => Move::Leaves,
        (State::OperandWanted | State::ListBegun, _) => operand_move(kind),
        (State::AfterName, TokenKind::Opens) => Move::Enters(Frame::Arguments, State::ListBegun),
        (State::AfterName | State::AfterList, TokenKind::Joins) => Move::Goes(State::NameWanted),
        _ => after_move(frame, kind),
    }
}

/// Where the test stands after the parenthesis that ends the frame.
fn after_frame(frame: Frame) -> State
    ensures { result ≡ after_frame frame }
{
    match frame {
        Frame::Arguments => State::AfterList,
        _ => State::AfterOperand,
    }
}

/// Whether the tokens may end here.
fn may_end(state: State, frame: Frame) -> bool
    ensures { result ≡ may_end state frame }
{
    matches!(
        (state, frame),
        (
            State::AfterName | State::AfterList | State::AfterOperand,
            Frame::Whole
        )
    )
}

/// Where a move leads: the state and the frame, `around` having the frames about it; or nowhere.
fn moved(
    step: Move,
    frame: Frame,
    around: &mut Vec<Frame>,
) -> Result<Option<(State, Frame)>, AllocFailed<Frame>>
    ensures { (more : states.State → frames.Frame → List frames.Frame → Bool) → IfOk result
        (λ o. moved step more frame (onto around.old.items []) ≡ answered more (onto around.new.items []) o) }
{
    match step {
        Move::Stops => Ok(None),
        Move::Goes(next) => Ok(Some((next, frame))),
        Move::Enters(inner, next) => {
            around.push(frame)?;
            Ok(Some((next, inner)))
        }
        Move::Leaves => match around.pop() {
            Some(outer) => Ok(Some((after_frame(frame), outer))),
            None => Ok(None),
        },
        Move::Turns => Ok(Some((State::OperandWanted, Frame::Whole))),
    }
}

/// Whether the tokens are a reference, `=` and one expression, however long and however deep.
pub fn is_assignment(alloc: Global, texts: &[TokenText]) -> Result<bool, AllocError>
    ensures { IfOk result (λ b. b ≡ is_assignment texts.now) }
{
    let mut state = State::NameWanted;
    let mut frame = Frame::Target;
    let mut around = Vec::new(alloc);
    for text in texts {
        let step = movement(state, frame, kind_of(text));
        let Some(there) = moved(step, frame, &mut around)? else {
            return Ok(false);
        };
        (state, frame) = there;
    }
    Ok(may_end(state, frame))
}
