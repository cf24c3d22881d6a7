//! Values of scalars, as a test writes and compares them.

use crate::steps::natural;
use pli_map::Description;
use pli_value::bit::Bits;
use pli_value::{Locator, Value};
use std::alloc::Global;
use std::fmt;
use std::process::Abort;

/// How many characters of a string are told apart; all after them are blanks.
const SHOWN: usize = 32;

/// A string: its length, and its first characters, with zeros after a short one.
#[derive(Clone, Copy, PartialEq, Eq)]
pub(crate) struct Text {
    length: u16,
    shown: [u8; SHOWN],
}

impl Text {
    /// The same character so many times.
    pub(crate) fn filled(length: u16, character: u8) -> Text {
        let mut shown = [0; SHOWN];
        for place in 0..SHOWN.min(usize::from(length)) {
            shown[place] = character;
        }
        Text { length, shown }
    }

    /// These characters.
    pub(crate) fn of(rt: &impl Abort, text: &[u8]) -> Text {
        let length = u16::try_from(text.len()).expect(rt, "a length");
        let mut shown = [0; SHOWN];
        for place in 0..text.len() {
            if place < SHOWN {
                shown[place] = text[place];
            } else {
                assert!(rt; text[place] == b' ');
            }
        }
        Text { length, shown }
    }

    /// How many characters it has.
    pub(crate) fn length(self) -> usize {
        usize::from(self.length)
    }

    /// Both, where all their characters are shown.
    pub(crate) fn and(self, rt: &impl Abort, after: Text) -> Text {
        let mut both = self;
        for character in after.characters(rt) {
            let place = both.length();
            *both.shown.get_mut(place).expect(rt, "a short text") = *character;
            both.length = both.length.saturating_add(1);
        }
        both
    }

    /// Its characters, where all are shown.
    pub(crate) fn characters(&self, rt: &impl Abort) -> &[u8] {
        self.shown
            .get(..usize::from(self.length))
            .expect(rt, "a short text")
    }
}

impl fmt::Display for Text {
    fn fmt<W: fmt::Write>(&self, f: &mut fmt::Formatter<W>) -> fmt::Result {
        let count = SHOWN.min(usize::from(self.length));
        write!(
            f,
            "'{}'",
            str::from_utf8(&self.shown[..count]).unwrap_or("no text")
        )
    }
}

/// The locator that a word is, if it is one: `null`, `^2` or `^2+8` for a pointer to position 8 of generation 2, `@8`
/// for an offset.
fn locator_of(rt: &impl Abort, word: &str) -> Option<Locator> {
    if word == "null" {
        return Some(Locator::Null);
    }
    if let Some(position) = word.strip_prefix("@") {
        return Some(Locator::Offset(natural(rt, position)));
    }
    let pointer = word.strip_prefix("^")?;
    let (generation, position) = pointer.split_once('+').unwrap_or((pointer, "0"));
    Some(Locator::Pointer {
        generation: natural(rt, generation),
        position: natural(rt, position),
    })
}

/// A value of a scalar. Bits are told as their digits.
#[derive(Clone, Copy, PartialEq, Eq)]
pub(crate) enum Item {
    Number(i64),
    Characters(Text),
    Bits(Text),
    Locator(Locator),
}

impl fmt::Display for Item {
    fn fmt<W: fmt::Write>(&self, f: &mut fmt::Formatter<W>) -> fmt::Result {
        match self {
            Item::Number(number) => write!(f, "{number}"),
            Item::Characters(text) => write!(f, "{text}"),
            Item::Bits(digits) => write!(f, "{digits}B"),
            Item::Locator(Locator::Null) => write!(f, "null"),
            Item::Locator(Locator::Offset(position)) => write!(f, "@{position}"),
            Item::Locator(
                Locator::Pointer {
                    generation,
                    position,
                },
            ) => write!(f, "^{generation}+{position}"),
        }
    }
}

impl Item {
    /// What the code calls the value.
    pub(crate) fn value(self, rt: &impl Abort, alloc: Global) -> Value {
        match self {
            Item::Number(number) => Value::Number(number),
            Item::Characters(text) => {
                Value::Characters(text.characters(rt).to_vec(alloc).expect(rt, "memory"))
            }
            Item::Bits(digits) => {
                let mut bits = Bits::new(alloc);
                for digit in digits.characters(rt) {
                    assert!(rt; bits.length() < SHOWN);
                    bits.push(*digit == b'1').expect(rt, "memory");
                }
                Value::Bits(bits)
            }
            Item::Locator(locator) => Value::Locator(locator),
        }
    }

    /// What the code calls so.
    pub(crate) fn of(rt: &impl Abort, value: &Value) -> Item {
        match value {
            Value::Number(number) => Item::Number(*number),
            Value::Characters(text) => Item::Characters(Text::of(rt, text)),
            Value::Bits(bits) => {
                assert!(rt; bits.length() <= SHOWN);
                let mut digits = Text::filled(bits.length() as u16, b'0');
                for place in 0..bits.length() {
                    if bits.at(place) {
                        digits.shown[place] = b'1';
                    }
                }
                Item::Bits(digits)
            }
            Value::Locator(locator) => Item::Locator(*locator),
        }
    }

    /// The value that a word is: `-7`, `'AB'`, `'101'B`, or a locator.
    pub(crate) fn read(rt: &impl Abort, word: &str) -> Item {
        let Some((_, quoted)) = word.split_once('\'') else {
            return match locator_of(rt, word) {
                Some(locator) => Item::Locator(locator),
                None => Item::Number(word.parse().expect(rt, "a number")),
            };
        };
        let (text, after) = quoted.split_once('\'').expect(rt, "a quote");
        let text = Text::of(rt, text.as_bytes());
        if after == "B" {
            Item::Bits(text)
        } else {
            Item::Characters(text)
        }
    }

    /// The value with which a scalar begins; what is no scalar has none.
    pub(crate) fn first(description: &Description) -> Option<Item> {
        match description {
            Description::FixedBinary(_) => Some(Item::Number(0)),
            Description::Character(length) => Some(Item::Characters(Text::filled(*length, b' '))),
            Description::Varying(_) => Some(Item::Characters(Text::filled(0, b' '))),
            Description::Bit(length) => Some(Item::Bits(Text::filled(*length, b'0'))),
            Description::Pointer => Some(Item::Locator(Locator::Null)),
            Description::Offset => Some(Item::Locator(Locator::Offset(0))),
            _ => None,
        }
    }

    /// Whether a scalar may hold the value: a number of no more binary digits, as many characters or bits, or no more
    /// characters where they vary; a pointer that is null or leads to a generation below 4,294,967,295; any offset.
    pub(crate) fn fits(self, description: &Description) -> bool {
        match (description, self) {
            (Description::FixedBinary(precision), Item::Number(number)) => {
                let mut rest = number.unsigned_abs();
                for _ in 0..*precision {
                    rest /= 2;
                }
                rest == 0
            }
            (Description::Character(length), Item::Characters(text)) => text.length == *length,
            (Description::Varying(length), Item::Characters(text)) => text.length <= *length,
            (Description::Bit(length), Item::Bits(digits)) => digits.length == *length,
            (Description::Pointer, Item::Locator(Locator::Null)) => true,
            (Description::Pointer, Item::Locator(Locator::Pointer { generation, .. })) => {
                generation < u32::MAX
            }
            (Description::Offset, Item::Locator(Locator::Offset(_))) => true,
            _ => false,
        }
    }
}
