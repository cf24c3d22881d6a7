//! How far an expansion has come.
ghost use Rattle.std.specs.Prelude.{◌≡◌, ◌≤◌, ◌-◌, ◌+◌, ◌++◌, OnOk, IfOk, Some, length, map, slice_get, not};
ghost use Rattle.pli_base.specs.Words.{is_among};
ghost use Rattle.pli_include.specs.Expansion.{started, all_kept, text_of, directed, looking};

use crate::origins::Origins;
use indexmap::IndexSet;
use pli_base::{Name, Origin, Token, TokenText};
use std::alloc::{AllocError, Global};
use std::marker::Model;

/// The greatest number of tokens that an expansion reads (own).
const TOKEN_LIMIT: usize = 200_000;

/// How many tokens were read, those of directives among them; the texts of those that stay, with their origins; and the
/// names that were looked up, each once.
#[derive(Drop)]
pub struct Progress {
    read: usize,
    texts: Vec<TokenText>,
    origins: Origins,
    looked: IndexSet<Name>,
}

impl Model for Progress {
    ghost use Rattle.std.specs.Prelude.{◌≤◌};
    ghost use Rattle.pli_include.specs.Expansion as expansion;

    ghost Value = { expansion.Progress };

    ghost view = { λ p. record { read = p.read; texts = p.texts.items; origins = p.origins; looked = p.looked.keys } };

    ghost invariant = { λ p. p.read ≤ 200000 };
}

/// Appends the texts of tokens.
fn copy_texts(alloc: Global, texts: &mut Vec<TokenText>, tokens: &[Token]) -> Result<(), AllocError>
    ensures { OnOk result (texts.new.items ≡ texts.old.items ++ map text_of tokens.now) }
{
    texts.reserve(tokens.len())?;
    for token in tokens {
        texts.push(token.text.copy(alloc)?)?;
    }
    Ok(())
}

/// The texts of an expansion and their origins.
#[derive(Drop)]
pub struct Texts {
    pub texts: Vec<TokenText>,
    pub origins: Origins,
}

impl Progress {
    /// Nothing is read yet.
    pub fn new(alloc: Global) -> Progress
        ensures { result ≡ started }
    {
        Progress {
            read: 0,
            texts: Vec::new(alloc),
            origins: Origins::new(alloc),
            looked: IndexSet::new(alloc),
        }
    }

    /// How many more tokens may be read.
    pub fn room(&self) -> usize
        ensures room { result ≡ 200000 - self.now.read }
        ensures within { self.now.read ≤ 200000 }
    {
        TOKEN_LIMIT - self.read
    }

    /// Reads tokens of a member, which stay.
    pub fn keep(&mut self, alloc: Global, member: Name, tokens: &[Token]) -> Result<(), AllocError>
        requires { self.old.read + length tokens.now ≤ 200000 }
        ensures { OnOk result (self.new ≡ all_kept member tokens.now self.old) }
    {
        copy_texts(alloc, &mut self.texts, tokens)?;
        self.origins.extend(member, tokens)?;
        self.read += tokens.len();
        Ok(())
    }

    /// Reads the four tokens of a directive, which do not stay.
    pub fn direct(&mut self)
        requires { self.old.read + 4 ≤ 200000 }
        ensures { self.new ≡ directed self.old }
    {
        self.read += 4;
    }

    /// Notes that a name is looked up, and answers its place among those that were, and whether it comes first now.
    pub fn look(&mut self, name: Name) -> Result<(usize, bool), AllocError>
        ensures looked { OnOk result (self.new ≡ looking name self.old) }
        ensures place { IfOk result (λ r. slice_get self.new.looked r.0 ≡ Some name) }
        ensures first { IfOk result (λ r. r.1 ≡ not (is_among name self.old.looked)) }
        ensures within { self.old.read ≤ 200000 }
    {
        Ok(self.looked.insert_full(name)?)
    }

    /// The names that were looked up.
    pub fn looked(&self) -> &[Name]
        ensures { result.now ≡ self.now.looked }
    {
        self.looked.as_slice()
    }

    /// The texts and their origins, in no more memory than they take.
    pub fn into_texts(mut self) -> Texts
        ensures texts { result.texts.items ≡ self.texts }
        ensures origins { result.origins ≡ self.origins }
    {
        self.texts.shrink_to_fit();
        self.origins.shrink_to_fit();
        Texts {
            texts: self.texts,
            origins: self.origins,
        }
    }
}
