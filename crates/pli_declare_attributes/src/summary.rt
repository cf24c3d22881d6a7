//! The attributes that stand beside a name, taken together.
ghost use Rattle.std.specs.Prelude.{◌≡◌, ◌&&◌, ◌||◌, true, false, map};
ghost use Rattle.std.specs.Int.RustNames.{bit_or};
ghost use Rattle.std.specs.Option.{option_or};
ghost use Rattle.pli_base.specs.views.DeclarationView.{simple_view, described_view, attribute_view};
ghost use Rattle.pli_declare.specs.Sets.{none_of, set_of, each_once, outermost};
ghost use Rattle.pli_declare.specs.Types.{stated_number, written_number, simple_number, described_number};
ghost use Rattle.pli_declare.specs.Types.{number_of, is_any, is_written_any, simple_star, described_star};
ghost use Rattle.pli_declare.specs.Types.{has_star};

use crate::set::AttributeSet;
use bitflags::Flags;
use pli_base::declaration::{Attribute, DescribedAttribute, SimpleAttribute, WrittenLength};

/// What attributes say together.
#[derive(Clone, Copy)]
pub(crate) struct Summary {
    pub set: AttributeSet,
    /// Whether each stands once.
    pub once: bool,
    /// The first precision, length or size.
    pub number: Option<u64>,
    /// Whether `*` stands as a length or a size.
    pub star: bool,
}

impl Summary {
    /// Of no attribute.
    fn new() -> Summary
        ensures set { result.set.0 ≡ 0 }
        ensures once { result.once ≡ true }
        ensures number { result.number ≡ None }
        ensures star { result.star ≡ false }
    {
        Summary {
            set: AttributeSet::empty(),
            once: true,
            number: None,
            star: false,
        }
    }

    /// With one attribute more.
    fn and(self, attribute: AttributeSet, number: Option<u64>, star: bool) -> Summary
        ensures set { result.set.0 ≡ bit_or self.set.0 attribute.0 }
        ensures once { result.once ≡ (self.once && none_of self.set.0 attribute.0) }
        ensures number { result.number ≡ option_or self.number number }
        ensures star { result.star ≡ (self.star || star) }
    {
        Summary {
            set: self.set.and(attribute),
            once: self.once && self.set.has_none_of(attribute),
            number: self.number.or(number),
            star: self.star || star,
        }
    }

    /// Of the attributes of a description.
    pub(crate) fn of_description(attributes: &[DescribedAttribute]) -> Summary
        ensures set { result.set.0 ≡ set_of (map described_view attributes.now) }
        ensures once { result.once ≡ each_once 0 (map described_view attributes.now) }
        ensures number { result.number ≡ number_of (map described_view attributes.now) }
        ensures star { result.star ≡ has_star (map described_view attributes.now) }
    {
        let mut summary = Summary::new();
        for attribute in attributes {
            let number = number_of_described(attribute);
            let star = star_of_described(attribute);
            summary = summary.and(AttributeSet::of_described(attribute), number, star);
        }
        summary
    }

    /// Of the attributes of an item.
    pub(crate) fn of_item(attributes: &[Attribute]) -> Summary
        ensures set { result.set.0 ≡ set_of (map outermost (map attribute_view attributes.now)) }
        ensures once { result.once ≡ each_once 0 (map outermost (map attribute_view attributes.now)) }
        ensures number { result.number ≡ number_of (map outermost (map attribute_view attributes.now)) }
        ensures star { result.star ≡ has_star (map outermost (map attribute_view attributes.now)) }
    {
        let mut summary = Summary::new();
        for attribute in attributes {
            let number = number_of_attribute(attribute);
            let star = star_of_attribute(attribute);
            summary = summary.and(AttributeSet::of_attribute(attribute), number, star);
        }
        summary
    }
}

/// The number that a length or a size is, unless it is `*`.
fn stated_number(length: WrittenLength) -> Option<u64>
    ensures { result ≡ stated_number length }
{
    match length {
        WrittenLength::Stated(number) => Some(number),
        WrittenLength::Any => None,
    }
}

/// The same of one that may be left out.
fn written_number(length: Option<WrittenLength>) -> Option<u64>
    ensures { result ≡ written_number length }
{
    match length {
        Some(length) => stated_number(length),
        None => None,
    }
}

/// Whether a length or a size is `*`.
fn is_any(length: WrittenLength) -> bool
    ensures { result ≡ is_any length }
{
    match length {
        WrittenLength::Stated(_) => false,
        WrittenLength::Any => true,
    }
}

/// Whether one that may be left out is.
fn is_written_any(length: Option<WrittenLength>) -> bool
    ensures { result ≡ is_written_any length }
{
    match length {
        Some(length) => is_any(length),
        None => false,
    }
}

/// The precision, length or size of an attribute.
fn number_of_simple(attribute: &SimpleAttribute) -> Option<u64>
    ensures { result ≡ simple_number (simple_view attribute.now) }
{
    match attribute {
        SimpleAttribute::Fixed(number) | SimpleAttribute::Binary(number) => *number,
        SimpleAttribute::Character(length)
        | SimpleAttribute::Bit(length)
        | SimpleAttribute::Area(length) => written_number(*length),
        _ => None,
    }
}

/// Whether `*` stands as the length or the size of an attribute.
fn star_of_simple(attribute: &SimpleAttribute) -> bool
    ensures { result ≡ simple_star (simple_view attribute.now) }
{
    match attribute {
        SimpleAttribute::Character(length)
        | SimpleAttribute::Bit(length)
        | SimpleAttribute::Area(length) => is_written_any(*length),
        _ => false,
    }
}

fn number_of_described(attribute: &DescribedAttribute) -> Option<u64>
    ensures { result ≡ described_number (described_view attribute.now) }
{
    match attribute {
        DescribedAttribute::Simple(simple) => number_of_simple(simple),
        DescribedAttribute::Entry | DescribedAttribute::Returns => None,
    }
}

fn number_of_attribute(attribute: &Attribute) -> Option<u64>
    ensures { result ≡ described_number (outermost (attribute_view attribute.now)) }
{
    match attribute {
        Attribute::Simple(simple) => number_of_simple(simple),
        Attribute::Entry(_) | Attribute::Returns(_) => None,
    }
}

fn star_of_described(attribute: &DescribedAttribute) -> bool
    ensures { result ≡ described_star (described_view attribute.now) }
{
    match attribute {
        DescribedAttribute::Simple(simple) => star_of_simple(simple),
        DescribedAttribute::Entry | DescribedAttribute::Returns => false,
    }
}

fn star_of_attribute(attribute: &Attribute) -> bool
    ensures { result ≡ described_star (outermost (attribute_view attribute.now)) }
{
    match attribute {
        Attribute::Simple(simple) => star_of_simple(simple),
        Attribute::Entry(_) | Attribute::Returns(_) => false,
    }
}
