//! The tokens of the members that were looked up, each lexed once in an expansion.
ghost use Rattle.std.specs.Prelude.{◌≡◌, ◌≤◌, OnOk, IfOk};
ghost use Rattle.pli_members.specs.answers.Kept.{IsKept};
ghost use Rattle.pli_include.specs.Expanded.{look_in};
ghost use Rattle.pli_include.specs.Expansion.{looking};
ghost use Rattle.pli_include.specs.answers.Walking.{HoldsTexts, Finds};

use crate::progress::Progress;
use pli_base::{Name, Token};
use pli_lex::{LexError, LexFault, lex};
use pli_members::Members;
use std::alloc::{AllocError, Global};
use std::marker::Model;

/// The tokens of a member. Contracts see the list of them.
#[derive(Drop)]
pub struct MemberTokens {
    tokens: Vec<Token>,
}

impl Model for MemberTokens {
    ghost use Rattle.std.specs.Prelude.{List};
    ghost use Rattle.pli_base.specs.declared.token.Token.{Token};

    ghost Value = { List Token };

    ghost view = { λ t. t.tokens.items };
}

impl MemberTokens {
    /// The text that has these tokens.
    fn new(tokens: Vec<Token>) -> MemberTokens
        ensures { result ≡ tokens.items }
    {
        MemberTokens { tokens }
    }

    /// The tokens.
    pub fn tokens(&self) -> &[Token]
        ensures { result.now ≡ self.now }
    {
        self.tokens.as_slice()
    }
}

/// What stands under a name.
#[derive(Clone, Copy)]
pub enum Membership {
    /// No member.
    Absent,
    /// A member with a fault.
    Faulty(LexFault),
    /// A member whose tokens are the text at this place.
    At(usize),
}

/// Looks a name up. The member's tokens come to the texts when it is looked up first, so that a member is lexed once
/// however often it is included.
pub fn look(
    alloc: Global,
    members: &Members,
    progress: &mut Progress,
    texts: &mut Vec<MemberTokens>,
    name: Name,
) -> Result<Membership, AllocError>
    requires kept { IsKept members.now }
    requires held { HoldsTexts (look_in members.now.entries) progress.old.looked texts.old.items }
    ensures looked { OnOk result (progress.new ≡ looking name progress.old) }
    ensures found { IfOk result (λ found. Finds (look_in members.now.entries) name found progress.new.looked
        texts.new.items) }
    ensures within { progress.old.read ≤ 200000 }
{
    let (slot, is_first) = progress.look(name)?;
    if !is_first {
        return Ok(Membership::At(slot));
    }
    let Some(lines) = members.lines(name) else {
        return Ok(Membership::Absent);
    };
    match lex(alloc, lines) {
        Ok(tokens) => {
            texts.push(MemberTokens::new(tokens))?;
            Ok(Membership::At(slot))
        }
        Err(LexError::Fault(fault)) => Ok(Membership::Faulty(fault)),
        Err(LexError::OutOfMemory) => Err(AllocError),
    }
}
