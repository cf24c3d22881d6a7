//! The names of the members, one after another.
ghost use Rattle.std.specs.Prelude.{◌≡◌};
ghost use Rattle.std.specs.Iterator.{YieldsFirst, item_count};
ghost use Rattle.std.specs.Map.{keys_of};

use crate::entry::NamedMember;
use pli_base::Name;
use std::marker::Model;

/// The names that are left, in order.
#[derive(Drop)]
pub struct NamesLeft<'a> {
    entries: &'a [NamedMember],
}

impl<'a> Model for NamesLeft<'a> {
    ghost use Rattle.std.specs.Prelude.{List};
    ghost use Rattle.std.specs.Map.{keys_of};
    ghost use Rattle.pli_base.specs.Name.{Name as Characters};

    ghost Value = { List Characters };

    ghost view = { λ n. keys_of n.entries.now };
}

impl<'a> NamesLeft<'a> {
    // The names of these entries.
    pub(crate) fn of(entries: &'a [NamedMember]) -> NamesLeft<'a>
        ensures { result ≡ keys_of entries.now }
    {
        NamesLeft { entries }
    }
}

impl<'a> Iterator for NamesLeft<'a> {
    type Item = Name;

    ghost next_gives = { YieldsFirst (λ names. names) };

    ghost remaining = { item_count (λ names. names) };

    fn next(&mut self) -> Option<Name> {
        let (first, rest) = self.entries.split_first()?;
        self.entries = rest;
        Some(first.name())
    }
}
