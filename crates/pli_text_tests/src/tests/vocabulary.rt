ghost use Rattle.std.specs.Prelude.{Some};

use crate::tests::name;
use pli_base::{
    Code, Device, Failed, Line, NAME_LIMIT, Name, Sink, Source, decimal_value, is_digit, is_letter,
    is_name_character, put_all, take_all,
};
use std::alloc::Global;
use std::collections::HashMap;
use std::io::Cursor;
use std::process::Abort;
use std::test::*;

/// Whether names are read as they should be, and nothing else is.
fn names_are_read(sum: Name) -> bool {
    let long = [b'a'; NAME_LIMIT + 1];
    sum.bytes() == b"SUM_1$".as_slice()
        && sum.is(b"SUM_1$")
        && !sum.is(b"Sum_1$")
        && Name::read(&long[1..]).is_some()
        && Name::read(long.as_slice()).is_none()
        && Name::read(b"").is_none()
        && Name::read(b"_a").is_none()
        && Name::read(b"a-b").is_none()
}

/// Whether characters are told apart, and digits have their value.
fn characters_are_told() -> bool {
    is_letter(b'a')
        && is_letter(b'Z')
        && !is_letter(b'_')
        && is_digit(b'9')
        && !is_digit(b':')
        && is_name_character(b'$')
        && !is_name_character(b'-')
        && decimal_value(b"9999999999999999999") == 9_999_999_999_999_999_999
}

#[test]
fn names_and_characters(rt: HostRuntime) {
    assert!(rt; names_are_read(name(&rt, "Sum_1$")) && characters_are_told());
}

/// How many different names there are among two, and how the first is written.
fn counted(rt: &impl Abort, alloc: Global, first: Name, second: Name) -> (usize, String) {
    let mut values = HashMap::new(alloc);
    let inserted: Result<_, _> = values.insert(first, 1);
    inserted.expect(rt, "memory");
    let inserted: Result<_, _> = values.insert(second, 2);
    inserted.expect(rt, "memory");
    let written = format!(in alloc; "{first:?}: {first}").expect(rt, "memory");
    (values.len(), written)
}

#[test]
fn names_as_keys(rt: HostRuntime) {
    let (a, b) = (name(&rt, "A"), name(&rt, "ab"));
    let (count, written) = counted(&rt, rt.alloc(), a, name(&rt, "a"));
    let is_right = count == 1 && written.as_str() == "A: A" && a < b;
    drop(written);
    assert!(rt; is_right);
}

/// Whether codes have their labels, texts and order.
fn codes_are_told() -> bool {
    Code::EndMissing.label() == "P9"
        && Code::EndMissing.text() == "END MISSING"
        && Code::BadInclude < Code::NoProcedure
        && Code::CannotPrint.label() == "T14"
        && Code::GenerationTooLarge < Code::NotAVariable
}

#[test]
fn codes_and_lines(rt: HostRuntime) {
    let shown = Code::EndMissing.to_string(rt.alloc()).expect(&rt, "memory");
    let is_shown = shown.as_str() == "P9 END MISSING";
    drop(shown);
    let line = Line::new(rt.alloc(), b"a = 1;").expect(&rt, "memory");
    let is_kept = line.text() == b"a = 1;".as_slice();
    drop(line);
    assert!(rt; is_shown && is_kept && codes_are_told());
}

/// Whether the bytes of a source are taken as they should be.
fn are_taken() -> bool {
    let mut source = Device::over(Cursor::new(b"one two".as_slice()));
    let mut word = [0u8; 4];
    source.take(&mut word[..2]) == Ok(2)
        && take_all(&mut source, &mut word) == Ok(4)
        && word.as_slice() == b"e tw".as_slice()
        && take_all(&mut source, &mut word) == Ok(1)
        && source.take(&mut word) == Ok(0)
}

/// Whether bytes are put where there is room, and no further.
fn are_put(alloc: Global) -> bool {
    let mut sink = Device::over(Vec::new(alloc));
    let kept = put_all(&mut sink, b"one ").is_ok() && put_all(&mut sink, b"two").is_ok();
    let mut room = [0u8; 2];
    let mut narrow = Device::over(room.as_mut_slice());
    let failed = put_all(&mut narrow, b"abc") == Err(Failed) && narrow.put(b"") == Err(Failed);
    kept && failed && sink.into_inner().as_slice() == b"one two".as_slice()
}

/// A device that moves one byte at a call, and fails after some calls.
#[derive(Drop)]
struct Faulty {
    bytes: Vec<u8>,
    calls: u32,
    failed: bool,
}

impl Sink for Faulty {
    ghost contents = { λ f. Some f.bytes.items };

    ghost failed = { λ f. f.failed };

    fn put(&mut self, bytes: &[u8]) -> Result<usize, Failed> {
        self.failed = self.failed || self.calls == 0;
        if self.failed {
            return Err(Failed);
        }
        self.calls -= 1;
        let Some(first) = bytes.first() else {
            return Ok(0);
        };
        if self.bytes.push(*first).is_err() {
            self.failed = true;
            return Err(Failed);
        }
        Ok(1)
    }
}

/// Whether three bytes are put, and nothing after the failure.
fn fails(sink: &mut Faulty) -> bool {
    put_all(sink, b"ab") == Ok(())
        && put_all(sink, b"cd") == Err(Failed)
        && put_all(sink, b"") == Err(Failed)
        && sink.bytes.as_slice() == b"abc".as_slice()
}

#[test]
fn devices(rt: HostRuntime) {
    let mut sink = Faulty {
        bytes: Vec::new(rt.alloc()),
        calls: 3,
        failed: false,
    };
    let is_right = fails(&mut sink);
    drop(sink);
    assert!(rt; is_right && are_taken() && are_put(rt.alloc()));
}
