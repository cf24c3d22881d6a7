//! Tables of descriptions.
ghost use Rattle.std.specs.Prelude.{◌≡◌, ◌+◌, ◌<◌, ◌≤◌, [], length, map, slice_get, IfOk, OnOk, OnErr};
ghost use Rattle.std.specs.Option.{option_map};
ghost use Rattle.pli_map.specs.Tables.{number_in, with_description, AreDistinct};
ghost use Rattle.pli_map.specs.views.DescriptionView.{description_view};
ghost use Rattle.pli_map.specs.views.TableView.{table_view};

use crate::description::Description;
use indexmap::IndexSet;
use std::alloc::{AllocError, Global};

/// Distinct descriptions, numbered from 0 in the order in which they were put in (own).
#[derive(Drop)]
pub struct Table {
    descriptions: IndexSet<Description>,
}

/// One description more, unless an equal one stands there.
fn put(descriptions: &mut IndexSet<Description>, description: Description) -> Result<(), AllocError>
    ensures { OnOk result (map description_view descriptions.new.keys
        ≡ with_description (map description_view descriptions.old.keys) (description_view description)) }
{
    match descriptions.insert(description) {
        Ok(_is_new) => Ok(()),
        Err(_refused) => Err(AllocError),
    }
}

impl Table {
    /// A table without descriptions, which takes no memory until the first is put in.
    pub fn new(alloc: Global) -> Table
        ensures { table_view result ≡ [] }
    {
        Table {
            descriptions: IndexSet::new(alloc),
        }
    }

    /// The number of a description: the one that it has, else the next, and then it is put in. A table that answers a
    /// number has fewer than 4,294,967,295 descriptions.
    pub fn number(&mut self, description: Description) -> Result<u32, AllocError>
        requires { length (table_view self.old) < 4294967295 }
        ensures number { IfOk result (λ number. number ≡ number_in (table_view self.old)
            (description_view description)) }
        ensures table { OnOk result (table_view self.new ≡ with_description (table_view self.old)
            (description_view description)) }
        ensures count { OnOk result (length (table_view self.new) ≤ length (table_view self.old) + 1) }
        ensures unchanged { OnErr result (table_view self.new ≡ table_view self.old) }
    {
        match self.descriptions.insert_full(description) {
            Ok((number, _is_new)) => Ok(number as u32),
            Err(_refused) => Err(AllocError),
        }
    }

    /// The description of a number, or `None` where none has it.
    pub fn get(&self, number: u32) -> Option<&Description>
        ensures { option_map (λ d. description_view d.now) result ≡ slice_get (table_view self.now) number }
    {
        self.descriptions.get_index(number as usize)
    }

    /// A copy, which equals the original.
    pub fn copy(&self, alloc: Global) -> Result<Table, AllocError>
        ensures { IfOk result (λ new. table_view new ≡ table_view self.now) }
    {
        let mut descriptions = IndexSet::with_capacity(alloc, self.descriptions.len())?;
        for description in self.descriptions.as_slice() {
            put(&mut descriptions, description.copy(alloc)?)?;
        }
        Ok(Table { descriptions })
    }

    /// A law: no two descriptions of a table are equal.
    pub fn is_distinct(&self)
        ensures { AreDistinct (table_view self.now) }
    {
        let _count = self.descriptions.len();
    }
}
