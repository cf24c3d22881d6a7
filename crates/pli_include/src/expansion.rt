//! What an expansion gives.
ghost use Rattle.std.specs.Prelude.{◌≡◌, ◌≤◌, [], length, Some, None};

use crate::origins::Origins;
use crate::progress::Texts;
use pli_base::{Code, Name, Origin, TokenText};
use pli_members::Members;
use std::alloc::Global;
use std::marker::Model;

/// A name that an expansion looked up, and the version that its member had, or `None` where there was none.
#[derive(Clone, Copy)]
pub struct TraceEntry {
    pub name: Name,
    pub version: Option<u64>,
}

/// The fault that ends an expansion, and where it stands: X1 to X6 where the token or comment begins, I1, I2 and I4 at
/// the `%` of the directive, I3 at the token that is one too many.
#[derive(Clone, Copy)]
pub struct ExpansionFault {
    pub code: Code,
    pub origin: Origin,
}

/// The expansion of a member: its texts with their origins, or a fault, and in each case the names that it rests on.
#[derive(Drop)]
pub struct Expansion {
    trace: Vec<TraceEntry>,
    texts: Vec<TokenText>,
    origins: Origins,
    fault: Option<ExpansionFault>,
}

impl Model for Expansion {
    ghost use Rattle.std.specs.Prelude.{◌≡◌, ◌≤◌, length};
    ghost use Rattle.pli_include.specs.Expanded.{Expanded};

    ghost Value = { Expanded };

    ghost view = { λ e. record { trace = e.trace.items; texts = e.texts.items; origins = e.origins; fault = e.fault } };

    ghost invariant = { λ e. (length e.origins ≡ length e.texts.items) × (length e.texts.items ≤ 200000) };
}

impl Expansion {
    ghost use Rattle.pli_include.specs.Expanded.{holds};

    /// An expansion without a fault.
    pub(crate) fn whole(trace: Vec<TraceEntry>, texts: Texts) -> Expansion
        requires origins { length texts.origins ≡ length texts.texts.items }
        requires few { length texts.texts.items ≤ 200000 }
        ensures { result ≡ record {
          trace = trace.items;
          texts = texts.texts.items;
          origins = texts.origins;
          fault = None;
        } }
    {
        Expansion {
            trace,
            texts: texts.texts,
            origins: texts.origins,
            fault: None,
        }
    }

    /// An expansion with a fault.
    pub(crate) fn faulty(alloc: Global, trace: Vec<TraceEntry>, fault: ExpansionFault) -> Expansion
        ensures { result ≡ record { trace = trace.items; texts = []; origins = []; fault = Some fault } }
    {
        Expansion {
            trace,
            texts: Vec::new(alloc),
            origins: Origins::new(alloc),
            fault: Some(fault),
        }
    }

    /// Each name that was looked up, once, in the order in which they were: the unit first.
    pub fn trace(&self) -> &[TraceEntry]
        ensures { result.now ≡ self.now.trace }
    {
        self.trace.as_slice()
    }

    /// What the tokens say; none where there is a fault.
    pub fn texts(&self) -> &[TokenText]
        ensures texts { result.now ≡ self.now.texts }
        ensures few { length result.now ≤ 200000 }
    {
        self.texts.as_slice()
    }

    /// Where each of the texts stands; none where there is a fault.
    pub fn origins(&self) -> &Origins
        ensures origins { result.now ≡ self.now.origins }
        ensures each { length result.now ≡ length self.now.texts }
    {
        &self.origins
    }

    /// Whether the members answer each name that was looked up as they did then: with the same version, or with no
    /// member. Where they do, the expansion of the unit is still this one.
    pub fn holds(&self, members: &Members) -> bool
        ensures { result ≡ holds members.now self.now.trace }
    {
        self.trace
            .iter()
            .all(|entry| members.version(entry.name) == entry.version)
    }

    /// The fault, if there is one.
    pub fn fault(&self) -> Option<ExpansionFault>
        ensures { result ≡ self.now.fault }
    {
        self.fault
    }
}
