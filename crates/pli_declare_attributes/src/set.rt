//! Sets of attributes.
ghost use Rattle.std.specs.Prelude.{⊤, ◌≡◌, ◌==◌, [], ◌∷◌, codes, map};
ghost use Rattle.std.specs.Int.RustNames.{bit_and, bit_or};
ghost use Rattle.pli_base.specs.views.DeclarationView.{simple_view, described_view, attribute_view};
ghost use Rattle.pli_declare.specs.Sets.{has, none_of, within, is_one_of, simple_kind, kind_of, outermost};

use bitflags::{Flag, Flags, bitflag_items};
use pli_base::declaration::{Attribute, DescribedAttribute, SimpleAttribute};

/// The attributes that stand beside a name. A precision counts as one beside FIXED or BINARY.
#[derive(Clone, Copy, PartialEq, Eq)]
pub(crate) struct AttributeSet(u32);

bitflag_items! {
    impl AttributeSet: u32 {
        const FIXED = 1;
        const BINARY = 2;
        const CHARACTER = 4;
        const VARYING = 8;
        const BIT = 16;
        const POINTER = 32;
        const OFFSET = 64;
        const AREA = 128;
        const AUTOMATIC = 256;
        const STATIC = 512;
        const BASED = 1024;
        const CONTROLLED = 2048;
        const INTERNAL = 4096;
        const EXTERNAL = 8192;
        const INITIAL = 16384;
        const BUILTIN = 32768;
        const ENTRY = 65536;
        const RETURNS = 131072;
        const PRECISION = 262144;
        const FIXED_BINARY = 3;
        const VARYING_CHARACTER = 12;
        const DATA = 255;
        const STORAGE = 3840;
        const SCOPE = 12288;
    }
}

impl Flags for AttributeSet {
    type Bits = u32;

    ghost exact = { ⊤ };

    ghost table = { (codes "FIXED", 1) ∷ (codes "BINARY", 2) ∷ (codes "CHARACTER", 4) ∷ (codes "VARYING", 8)
        ∷ (codes "BIT", 16) ∷ (codes "POINTER", 32) ∷ (codes "OFFSET", 64)
        ∷ (codes "AREA", 128) ∷ (codes "AUTOMATIC", 256) ∷ (codes "STATIC", 512) ∷ (codes "BASED", 1024)
        ∷ (codes "CONTROLLED", 2048) ∷ (codes "INTERNAL", 4096)
        ∷ (codes "EXTERNAL", 8192) ∷ (codes "INITIAL", 16384) ∷ (codes "BUILTIN", 32768) ∷ (codes "ENTRY", 65536)
        ∷ (codes "RETURNS", 131072)
        ∷ (codes "PRECISION", 262144) ∷ (codes "FIXED_BINARY", 3) ∷ (codes "VARYING_CHARACTER", 12)
        ∷ (codes "DATA", 255) ∷ (codes "STORAGE", 3840) ∷ (codes "SCOPE", 12288) ∷ [] };

    ghost set_of = { λ s. s.0 };

    fn flags<'a>() -> &'a [Flag<AttributeSet>] {
        AttributeSet::FLAGS
    }

    fn bits(&self) -> u32 {
        self.0
    }

    fn from_bits_retain(bits: u32) -> AttributeSet {
        AttributeSet(bits)
    }
}

impl AttributeSet {
    /// Whether all of these stand.
    pub(crate) fn has(self, attributes: AttributeSet) -> bool
        ensures { result ≡ has self.0 attributes.0 }
    {
        self.contains(attributes)
    }

    /// Whether none of these stands.
    pub(crate) fn has_none_of(self, attributes: AttributeSet) -> bool
        ensures { result ≡ none_of self.0 attributes.0 }
    {
        self.intersection(attributes).is_empty()
    }

    /// Whether no other than these stands.
    pub(crate) fn is_within(self, attributes: AttributeSet) -> bool
        ensures { result ≡ within self.0 attributes.0 }
    {
        self.intersection(attributes) == self
    }

    /// Whether those of it that are in `part` are one of these sets.
    pub(crate) fn has_one_of(self, part: AttributeSet, sets: &[AttributeSet]) -> bool
        ensures { result ≡ is_one_of (bit_and self.0 part.0) (map (λ s. s.0) sets.now) }
    {
        sets.contains(&self.intersection(part))
    }

    /// These and those.
    pub(crate) fn and(self, others: AttributeSet) -> AttributeSet
        ensures { result.0 ≡ bit_or self.0 others.0 }
    {
        self.union(others)
    }

    /// An attribute alone, and its precision if it is FIXED or BINARY and has one.
    pub(crate) fn of_simple(attribute: &SimpleAttribute) -> AttributeSet
        ensures { result.0 ≡ simple_kind (simple_view attribute.now) }
    {
        match attribute {
            SimpleAttribute::Fixed(None) => AttributeSet::FIXED,
            SimpleAttribute::Fixed(Some(_)) => AttributeSet::FIXED.and(AttributeSet::PRECISION),
            SimpleAttribute::Binary(None) => AttributeSet::BINARY,
            SimpleAttribute::Binary(Some(_)) => AttributeSet::BINARY.and(AttributeSet::PRECISION),
            SimpleAttribute::Character(_) => AttributeSet::CHARACTER,
            SimpleAttribute::Bit(_) => AttributeSet::BIT,
            SimpleAttribute::Varying => AttributeSet::VARYING,
            SimpleAttribute::Pointer => AttributeSet::POINTER,
            SimpleAttribute::Offset(_) => AttributeSet::OFFSET,
            SimpleAttribute::Area(_) => AttributeSet::AREA,
            SimpleAttribute::Based(_) => AttributeSet::BASED,
            SimpleAttribute::Controlled => AttributeSet::CONTROLLED,
            SimpleAttribute::Static => AttributeSet::STATIC,
            SimpleAttribute::Automatic => AttributeSet::AUTOMATIC,
            SimpleAttribute::External => AttributeSet::EXTERNAL,
            SimpleAttribute::Internal => AttributeSet::INTERNAL,
            SimpleAttribute::Builtin => AttributeSet::BUILTIN,
            SimpleAttribute::Initial(_) => AttributeSet::INITIAL,
        }
    }

    /// An attribute of a description, as a set.
    pub(crate) fn of_described(attribute: &DescribedAttribute) -> AttributeSet
        ensures { result.0 ≡ kind_of (described_view attribute.now) }
    {
        match attribute {
            DescribedAttribute::Simple(simple) => AttributeSet::of_simple(simple),
            DescribedAttribute::Entry => AttributeSet::ENTRY,
            DescribedAttribute::Returns => AttributeSet::RETURNS,
        }
    }

    /// An attribute of an item, as a set.
    pub(crate) fn of_attribute(attribute: &Attribute) -> AttributeSet
        ensures { result.0 ≡ kind_of (outermost (attribute_view attribute.now)) }
    {
        match attribute {
            Attribute::Simple(simple) => AttributeSet::of_simple(simple),
            Attribute::Entry(_) => AttributeSet::ENTRY,
            Attribute::Returns(_) => AttributeSet::RETURNS,
        }
    }
}
