//! Built-in functions.
ghost use Rattle.std.specs.Prelude.{◌≡◌};
ghost use Rattle.pli_base.specs.Words.{same_name};
ghost use Rattle.pli_declare.specs.BuiltIns as spec;
ghost use Rattle.pli_declare.specs.BuiltInGroups.{further_functions, storage_functions};
ghost use Rattle.pli_declare.specs.Places.{is_built_in};

use pli_base::Name;

/// A built-in function (X3.74 and own).
#[derive(Clone, Copy, PartialEq, Eq)]
pub enum BuiltInFunction {
    Abs,
    Max,
    Min,
    Mod,
    Divide,
    Sign,
    Length,
    Index,
    Allocation,
    /// LBOUND.
    LowBound,
    /// HBOUND.
    HighBound,
    /// SUBSTR.
    Substring,
    /// ADDR.
    Address,
    Null,
    Empty,
    Pointer,
    Offset,
}

/// Whether the name is this word. Most names differ in their lengths, which are compared first.
#[tactic(auto, using(crate::proofs::NameLengths::lengths_differ))]
fn is_word(name: &Name, word: &[u8]) -> bool
    ensures { result ≡ same_name name.now word.now }
{
    name.bytes().len() == word.len() && name.is(word)
}

/// SUBSTR, or the function of storage of a name.
fn storage_function(name: &Name) -> Option<BuiltInFunction>
    ensures { result ≡ spec.function_among storage_functions name.now }
{
    if is_word(name, b"SUBSTR") {
        Some(BuiltInFunction::Substring)
    } else if is_word(name, b"ADDR") {
        Some(BuiltInFunction::Address)
    } else if is_word(name, b"NULL") {
        Some(BuiltInFunction::Null)
    } else if is_word(name, b"EMPTY") {
        Some(BuiltInFunction::Empty)
    } else if is_word(name, b"POINTER") {
        Some(BuiltInFunction::Pointer)
    } else if is_word(name, b"OFFSET") {
        Some(BuiltInFunction::Offset)
    } else {
        None
    }
}

/// The function of a name, unless it is an arithmetic one.
fn further_function(name: &Name) -> Option<BuiltInFunction>
    ensures { result ≡ spec.function_among further_functions name.now }
{
    if is_word(name, b"LENGTH") {
        Some(BuiltInFunction::Length)
    } else if is_word(name, b"INDEX") {
        Some(BuiltInFunction::Index)
    } else if is_word(name, b"ALLOCATION") {
        Some(BuiltInFunction::Allocation)
    } else if is_word(name, b"LBOUND") {
        Some(BuiltInFunction::LowBound)
    } else if is_word(name, b"HBOUND") {
        Some(BuiltInFunction::HighBound)
    } else {
        storage_function(name)
    }
}

/// The built-in function of a name.
#[tactic(auto, unfolding(crate::specs::BuiltIns::function_named))]
pub fn function_named(name: Name) -> Option<BuiltInFunction>
    ensures { result ≡ spec.function_named name }
{
    if is_word(&name, b"ABS") {
        Some(BuiltInFunction::Abs)
    } else if is_word(&name, b"MAX") {
        Some(BuiltInFunction::Max)
    } else if is_word(&name, b"MIN") {
        Some(BuiltInFunction::Min)
    } else if is_word(&name, b"MOD") {
        Some(BuiltInFunction::Mod)
    } else if is_word(&name, b"DIVIDE") {
        Some(BuiltInFunction::Divide)
    } else if is_word(&name, b"SIGN") {
        Some(BuiltInFunction::Sign)
    } else {
        further_function(&name)
    }
}

/// Whether a name is that of a built-in function (X3.74 and own). Abbreviations are of keywords only.
#[tactic(auto, using(crate::proofs::BuiltInNames::named_is_built_in))]
pub fn is_built_in(name: Name) -> bool
    ensures { result ≡ is_built_in name }
{
    function_named(name).is_some()
}
