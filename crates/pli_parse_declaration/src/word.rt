//! The keywords of attributes. No word is reserved: they are keywords only where an attribute may stand.
ghost use Rattle.std.specs.Prelude.{◌≡◌};
ghost use Rattle.pli_parse_declaration.specs.DeclarationWords.{is_either, data_word, storage_word, nesting_word};
ghost use Rattle.pli_parse_declaration.specs.DeclarationWords.{attribute_word};
ghost use Rattle.pli_base.specs.Words.{same_name};

use pli_base::Name;

/// A keyword of an attribute other than ENTRY and RETURNS.
#[derive(Clone, Copy)]
pub enum SimpleWord {
    Fixed,
    Binary,
    Character,
    Bit,
    Varying,
    Pointer,
    Offset,
    Area,
    Based,
    Controlled,
    Static,
    Automatic,
    External,
    Internal,
    Builtin,
    Initial,
}

/// A keyword of an attribute.
#[derive(Clone, Copy)]
pub enum AttributeWord {
    Simple(SimpleWord),
    Entry,
    Returns,
}

/// Whether the name is this word.
fn is_word(name: &Name, word: &[u8]) -> bool
    ensures { result ≡ same_name name.now word.now }
{
    name.is(word)
}

/// Whether the name is this word or its abbreviation.
fn is_either(name: &Name, long: &[u8], short: &[u8]) -> bool
    ensures { result ≡ is_either long.now short.now name.now }
{
    name.is(long) || name.is(short)
}

/// The keyword of a data attribute that a name is.
#[tactic(auto, unfolding(crate::specs::DeclarationWords::data_word))]
fn data_word(name: &Name) -> Option<SimpleWord>
    ensures { result ≡ data_word name.now }
{
    if is_word(name, b"FIXED") {
        Some(SimpleWord::Fixed)
    } else if is_either(name, b"BINARY", b"BIN") {
        Some(SimpleWord::Binary)
    } else if is_either(name, b"CHARACTER", b"CHAR") {
        Some(SimpleWord::Character)
    } else if is_word(name, b"BIT") {
        Some(SimpleWord::Bit)
    } else if is_either(name, b"VARYING", b"VAR") {
        Some(SimpleWord::Varying)
    } else if is_either(name, b"POINTER", b"PTR") {
        Some(SimpleWord::Pointer)
    } else if is_word(name, b"OFFSET") {
        Some(SimpleWord::Offset)
    } else if is_word(name, b"AREA") {
        Some(SimpleWord::Area)
    } else {
        None
    }
}

/// The keyword of a storage class, a scope, BUILTIN or INITIAL that a name is.
#[tactic(auto, unfolding(crate::specs::DeclarationWords::storage_word))]
fn storage_word(name: &Name) -> Option<SimpleWord>
    ensures { result ≡ storage_word name.now }
{
    if is_word(name, b"BASED") {
        Some(SimpleWord::Based)
    } else if is_either(name, b"CONTROLLED", b"CTL") {
        Some(SimpleWord::Controlled)
    } else if is_word(name, b"STATIC") {
        Some(SimpleWord::Static)
    } else if is_either(name, b"AUTOMATIC", b"AUTO") {
        Some(SimpleWord::Automatic)
    } else if is_either(name, b"EXTERNAL", b"EXT") {
        Some(SimpleWord::External)
    } else if is_either(name, b"INTERNAL", b"INT") {
        Some(SimpleWord::Internal)
    } else if is_word(name, b"BUILTIN") {
        Some(SimpleWord::Builtin)
    } else if is_either(name, b"INITIAL", b"INIT") {
        Some(SimpleWord::Initial)
    } else {
        None
    }
}

/// ENTRY or RETURNS, if the name is one of them.
#[tactic(auto, unfolding(crate::specs::DeclarationWords::nesting_word))]
fn nesting_word(name: &Name) -> Option<AttributeWord>
    ensures { result ≡ nesting_word name.now }
{
    if is_word(name, b"ENTRY") {
        Some(AttributeWord::Entry)
    } else if is_word(name, b"RETURNS") {
        Some(AttributeWord::Returns)
    } else {
        None
    }
}

/// The keyword of an attribute that a name is.
#[tactic(auto, unfolding(crate::specs::DeclarationWords::attribute_word))]
pub fn attribute_word(name: &Name) -> Option<AttributeWord>
    ensures { result ≡ attribute_word name.now }
{
    match data_word(name) {
        Some(word) => Some(AttributeWord::Simple(word)),
        None => match storage_word(name) {
            Some(word) => Some(AttributeWord::Simple(word)),
            None => nesting_word(name),
        },
    }
}
