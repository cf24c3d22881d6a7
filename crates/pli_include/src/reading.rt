//! The reading of one member's tokens, up to the next directive.
ghost use Rattle.std.specs.Prelude.{◌≡◌, ◌<◌, ◌≤◌, length, take, slice_get, Some, true, false, IfOk};
ghost use Rattle.std.specs.List.{All};
ghost use Rattle.pli_base.specs.declared.token.Token.{Token};
ghost use Rattle.pli_include.specs.Pieces.{is_percent, IsPlain};
ghost use Rattle.pli_include.specs.answers.Pausing.{Reads};

use crate::directive::{is_percent, named_by};
use crate::expansion::ExpansionFault;
use crate::progress::Progress;
use pli_base::{Code, Name, Origin, Token};
use std::alloc::{AllocError, Global};

/// A member that is to be included, the place of its directive's `%`, and that of the token after its `;`.
#[derive(Clone, Copy)]
pub struct Request {
    pub name: Name,
    pub at: Origin,
    pub next: usize,
}

/// Where reading pauses.
#[derive(Clone, Copy)]
pub enum Pause {
    /// The tokens end.
    End,
    /// The expansion has a fault.
    Fault(ExpansionFault),
    /// A member is to be included.
    Include(Request),
}

/// A fault at a token of a member.
fn fault_at(code: Code, member: Name, token: &Token) -> Pause
    ensures { result ≡ Pause.Fault (record {
      code = code;
      origin = record {
        member = member;
        line = token.now.line;
      };
    }) }
{
    Pause::Fault(ExpansionFault {
        code,
        origin: Origin {
            member,
            line: token.line,
        },
    })
}

/// Reads the directive that the `%` at a place begins.
fn read_directive(progress: &mut Progress, member: Name, tokens: &[Token], place: usize) -> Pause
    requires within { place < length tokens.now }
    requires percent { (t : _) × (slice_get tokens.now place ≡ Some t) × (is_percent t.text ≡ true) }
    ensures { Reads 200000 member tokens.now place progress.old result progress.new }
{
    let rest = &tokens[place..];
    match rest {
        [percent, word, named, semicolon, ..] => {
            let Some(name) = named_by(&word.text, &named.text, &semicolon.text) else {
                return fault_at(Code::BadInclude, member, percent);
            };
            if let Some(extra) = rest[..4].get(progress.room()) {
                return fault_at(Code::TooManyTokens, member, extra);
            }
            progress.direct();
            Pause::Include(Request {
                name,
                at: Origin {
                    member,
                    line: percent.line,
                },
                next: place + 4,
            })
        }
        _ => fault_at(Code::BadInclude, member, &rest[0]),
    }
}

/// How many tokens stay that stand at the front: those before the first `%`, but no more than there is room for.
fn staying(tokens: &[Token], room: usize) -> usize
    ensures within { result ≤ length tokens.now }
    ensures room { result ≤ room }
    ensures plain { All IsPlain (take result tokens.now) }
    ensures over { (t : Token) → slice_get tokens.now result ≡ Some t → is_percent t.text ≡ false → result ≡ room }
{
    for count in 0..tokens.len() {
        if count == room || is_percent(&tokens[count].text) {
            return count;
        }
    }
    tokens.len()
}

/// Reads a member's tokens from a place on, up to their end, a fault or the next directive.
pub fn read_tokens(
    alloc: Global,
    progress: &mut Progress,
    member: Name,
    tokens: &[Token],
    start: usize,
) -> Result<Pause, AllocError>
    ensures { IfOk result (λ pause. Reads 200000 member tokens.now start progress.old pause progress.new) }
{
    let Some(rest) = tokens.get(start..) else {
        return Ok(Pause::End);
    };
    let count = staying(rest, progress.room());
    progress.keep(alloc, member, &rest[..count])?;
    let Some(next) = rest.get(count) else {
        return Ok(Pause::End);
    };
    if is_percent(&next.text) {
        return Ok(read_directive(progress, member, tokens, start + count));
    }
    Ok(fault_at(Code::TooManyTokens, member, next))
}
