//! Damaged modules, whose faults are those that a plain reader apart finds.
use crate::tests::found::{BYTES, FOUND};
use crate::tests::written::{MODULES, bytes_of};
use pli_base::Device;
use pli_code::Module;
use pli_deck_read::{ReadError, read_module};
use pli_machine::run;
use pli_print::RunFault;
use rand_core::utils::NextWord;
use rand_pcg::Pcg32;
use std::alloc::Global;
use std::process::Abort;
use std::test::*;

/// The steps of a run of a damaged module that is good.
const STEPS: u64 = 3000;

/// The byte that a change puts into a place.
fn changed_byte(module: &[u8], place: usize, how: u32, any: u8) -> u8 {
    let byte = module.get(place).copied().unwrap_or(0);
    match how {
        0 => 0,
        1 => 255,
        2 => module.get(place.wrapping_add(1)).copied().unwrap_or(byte),
        3 => module.get(place.wrapping_sub(1)).copied().unwrap_or(byte),
        4 => byte ^ 1,
        5 => byte ^ 2,
        6 => byte ^ 128,
        7 => byte.wrapping_add(1),
        8 => byte.wrapping_sub(1),
        _ => any,
    }
}

/// Puts a byte into a place, where there is one.
fn put(module: &mut [u8], place: usize, byte: u8) {
    if let Some(old) = module.get_mut(place) {
        *old = byte;
    }
}

/// Changes a module in a random place: it is cut there, the byte there is doubled, or another takes its place.
fn change(rt: &impl Abort, random: &mut Pcg32, module: &mut Vec<u8>) {
    let place = random.next_word() as usize % module.len().max(1);
    let how = random.next_word() % 12;
    let any = (random.next_word() & 255) as u8;
    let byte = changed_byte(module, place, how, any);
    if how == 10 {
        module.truncate(place);
    } else if how == 11 && place < module.len() {
        let twice = module[place];
        module.insert(place, twice).expect(rt, "memory");
    } else {
        put(module, place, byte);
    }
}

/// The damaged module of a number: one of the modules, with one to three changes.
fn damaged(rt: &impl Abort, alloc: Global, number: u32) -> Vec<u8> {
    let mut random = Pcg32::new(u64::from(number), 54);
    let which = number as usize % MODULES.lines().count().max(1);
    let text = MODULES.lines().nth(which).unwrap_or("");
    let mut module = bytes_of(rt, alloc, text);
    for _ in 0..1 + random.next_word() % 3 {
        change(rt, &mut random, &mut module);
    }
    module
}

/// Whether a run comes to an end, or its sink does.
fn returns(alloc: Global, module: &Module) -> bool {
    let mut sink = Device::over(Vec::new(alloc));
    !matches!(
        run(alloc, module, STEPS, &mut sink),
        Err(RunFault::OutOfMemory)
    )
}

/// Whether the first fault of a module has this number, or it has none, which is 0, and runs.
fn is_found(alloc: Global, module: &[u8], number: u8) -> bool {
    match read_module(alloc, module) {
        Ok(module) => number == 0 && returns(alloc, &module),
        Err(ReadError::Fault(fault)) => number == fault.number(),
        Err(ReadError::OutOfMemory) => false,
    }
}

/// The first damaged module whose fault is not that of the table; how many there are, where each is.
fn first_wrong(rt: &impl Abort, alloc: Global) -> u32 {
    let mut number = 0u32;
    for line in FOUND.lines() {
        for digit in line.bytes() {
            let module = damaged(rt, alloc, number);
            if !is_found(alloc, &module, digit.wrapping_sub(b'0')) {
                return number;
            }
            number = number.saturating_add(1);
        }
    }
    number
}

#[test]
fn damaged_modules(rt: HostRuntime) {
    let right = first_wrong(&rt, rt.alloc());
    assert!(rt; right == 20_000, "module {right}");
}

/// Whether a module with a change of a byte, which is taken back, has the first fault of this digit.
fn is_found_with(alloc: Global, module: &mut [u8], place: usize, how: u32, digit: u8) -> bool {
    let old = module.get(place).copied().unwrap_or(0);
    let byte = changed_byte(module, place, how, 0);
    put(module, place, byte);
    let is = is_found(alloc, module, digit.wrapping_sub(b'0'));
    put(module, place, old);
    is
}

/// Whether each byte of each module, put to 0, to 255 and to the bytes beside it, gives the faults of the table.
fn are_found(rt: &impl Abort, alloc: Global) -> bool {
    let mut digits = BYTES.bytes();
    for text in MODULES.lines() {
        let mut module = bytes_of(rt, alloc, text);
        for place in 0..module.len() {
            for how in 0..4 {
                let digit = digits.next().unwrap_or(0);
                if !is_found_with(alloc, &mut module, place, how, digit) {
                    return false;
                }
            }
        }
    }
    digits.next().is_none()
}

#[test]
fn each_byte(rt: HostRuntime) {
    assert!(rt; are_found(&rt, rt.alloc()));
}
