//! Names of the language.
ghost use Rattle.std.specs.Prelude.{◌≡◌, ◌↔◌, IsTrue, Some, nat_eq};
ghost use Rattle.std.specs.Hash as fed;
ghost use Rattle.std.specs.Cmp.Lexicographic.{pointwise, slice_cmp, nat_list_eq_equiv, nat_list_cmp_total, texts_ties};
ghost use Rattle.std.specs.Cmp.Lexicographic.{texts_po};
ghost use Rattle.std.specs.Ordering.{nat_cmp};
ghost use Rattle.std.specs.Cmp.Rules.{hashing};
ghost use Rattle.std.specs.Cmp;
ghost use Rattle.std.proofs.Common.{rules, refl};
ghost use Rattle.pli_base.specs.Name.{name_of, has_form, upper};

use crate::character::{is_letter, is_name_character};
use std::cmp::Ordering;
use std::hash::{Hash, Hasher};
use std::marker::Model;
use std::{fmt, str};

/// The greatest number of characters in a name (X3.74).
pub const NAME_LIMIT: usize = 31;

/// A name of the language: a letter followed by letters, digits, `_` or `$`, 1 to 31 characters, in upper case
/// (X3.74; `$` is own). Contracts see it as the list of its characters.
#[derive(Clone, Copy)]
pub struct Name {
    bytes: [u8; NAME_LIMIT],
    count: usize,
}

impl Model for Name {
    ghost use Rattle.std.specs.Prelude.{◌≡◌, ◌≤◌, ◌-◌, ◌++◌, ℕ, List, length, take, drop, replicate, Some};
    ghost use Rattle.pli_base.specs.Name.{name_of};
    ghost use Rattle.pli_base.specs.views.NameFields.{restored};

    ghost Value = { List ℕ };

    ghost view = { λ n. take n.count n.bytes };

    ghost invariant = { λ n. (n.count ≤ 31) × (drop n.count n.bytes ≡ replicate (31 - n.count) 0)
        × (length n.bytes ≡ 31) × (name_of (take n.count n.bytes) ≡ Some (take n.count n.bytes)) };

    ghost inverse = { λ v. record { bytes = v ++ replicate (31 - length v) 0; count = length v } };

    ghost inverse_ok = { restored };
}

/// Whether `text` is a letter followed by characters of names.
fn has_form(text: &[u8]) -> bool
    ensures { result ≡ has_form text.now }
{
    match text.split_first() {
        None => false,
        Some((first, rest)) => is_letter(*first)
            && rest.iter().all(|byte| is_name_character(*byte)),
    }
}

/// `byte` in upper case.
fn upper(byte: u8) -> u8
    ensures { result ≡ upper byte }
{
    if matches!(byte, b'a'..=b'z') {
        byte - 32
    } else {
        byte
    }
}

impl Name {
    /// The name that `text` spells; none where it is empty, too long or not of the form.
    pub fn read(text: &[u8]) -> Option<Name>
        ensures { result ≡ name_of text.now }
    {
        if !has_form(text) || text.len() > NAME_LIMIT {
            return None;
        }
        let mut bytes = [0; NAME_LIMIT];
        for (place, byte) in text.iter().enumerate() {
            bytes[place] = upper(*byte);
        }
        Some(Name {
            bytes,
            count: text.len(),
        })
    }

    /// Whether the name is spelt `text`, in upper case.
    pub fn is(&self, text: &[u8]) -> bool
        ensures { IsTrue result ↔ (self.now ≡ text.now) }
    {
        self.bytes() == text
    }

    /// Law: a name is read as itself.
    pub fn reads_as_itself(&self)
        ensures { name_of self.now ≡ Some self.now }
    {
        let _ = &self.count;
    }

    /// The characters.
    pub fn bytes(&self) -> &[u8]
        ensures { result.now ≡ self.now }
    {
        &self.bytes[..self.count]
    }

    /// The characters as text.
    #[tactic(auto, using(crate::proofs::WrittenNames::names_are_text))]
    pub fn as_str(&self) -> &str
        ensures { result.now ≡ self.now }
    {
        match str::from_utf8(&self.bytes[..self.count]) {
            Ok(text) => text,
            Err(_) => "",
        }
    }
}

impl fmt::Display for Name {
    ghost output = { λ name. Some name };

    fn fmt<W: fmt::Write>(&self, f: &mut fmt::Formatter<W>) -> fmt::Result {
        f.write_str(self.as_str())
    }
}

impl fmt::Debug for Name {
    fn fmt<W: fmt::Write>(&self, f: &mut fmt::Formatter<W>) -> fmt::Result {
        f.write_str(self.as_str())
    }
}

impl PartialEq for Name {
    ghost eq = { pointwise nat_eq };

    ghost laws = { Cmp.partial_equiv_from_equiv nat_list_eq_equiv };

    fn eq(&self, other: &Self) -> bool {
        self.bytes() == other.bytes()
    }
}

impl Eq for Name {
    ghost laws = { nat_list_eq_equiv };
}

impl PartialOrd for Name {
    ghost partial_cmp = { λ x y. Some (slice_cmp nat_cmp x y) };

    ghost laws = { texts_po };

    fn partial_cmp(&self, other: &Self) -> Option<Ordering> {
        Some(self.cmp(other))
    }
}

impl Ord for Name {
    ghost cmp = { slice_cmp nat_cmp };

    ghost total = { nat_list_cmp_total };

    ghost matches_partial_cmp = { λ x y. refl };

    ghost matches_eq = { λ x y. texts_ties x y };

    fn cmp(&self, other: &Self) -> Ordering {
        self.bytes().cmp(other.bytes())
    }
}

impl Hash for Name {
    ghost hash_input = { λ n. fed.slice fed.u8 n };

    ghost respects_eq = { Prim.search (hashing, rules) };

    fn hash<H: Hasher>(&self, state: &mut H) {
        self.bytes().hash(state);
    }
}
