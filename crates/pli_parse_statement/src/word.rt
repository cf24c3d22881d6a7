//! Words inside statements. No word is reserved: each is a keyword only where it may stand.
ghost use Rattle.std.specs.Prelude.{◌≡◌, ◌+◌, length, option_map, IfSome};
ghost use Rattle.pli_parse_statement.specs.StatementReading.{place_first, put_first, range_first, option_first};
ghost use Rattle.pli_parse_statement.specs.answers.StatementAnswers.{place_view, put_view, range_view, option_view};

use crate::cursor::is_name;
use pli_base::TokenText;

/// A word after a variable of ALLOCATE.
#[derive(Clone, Copy)]
pub enum PlaceWord {
    In,
    Set,
}

/// A word after PUT.
#[derive(Clone, Copy)]
pub enum PutWord {
    Skip,
    List,
}

/// A word after the first value of an iteration.
#[derive(Clone, Copy)]
pub enum RangeWord {
    To,
    By,
    Repeat,
}

/// A word after PROCEDURE and its parameters.
#[derive(Clone, Copy)]
pub enum OptionWord {
    Options,
    Returns,
    Recursive,
}

/// IN or SET, if it stands first, and the tokens after it.
#[tactic(auto, unfolding(crate::specs::StatementReading::place_first, crate::specs::StatementReading::place_word))]
pub fn place_first(texts: &[TokenText]) -> Option<(PlaceWord, &[TokenText])>
    ensures value { place_first texts.now ≡ option_map (λ x. (place_view x.0, x.1.now)) result }
    ensures place { IfSome result (λ x. length x.1.now + 1 ≡ length texts.now) }
{
    let [TokenText::Word(name), rest @ ..] = texts else {
        return None;
    };
    if is_name(name, b"IN") {
        Some((PlaceWord::In, rest))
    } else if is_name(name, b"SET") {
        Some((PlaceWord::Set, rest))
    } else {
        None
    }
}

/// SKIP or LIST, if it stands first, and the tokens after it.
#[tactic(auto, unfolding(crate::specs::StatementReading::put_first, crate::specs::StatementReading::put_word))]
pub fn put_first(texts: &[TokenText]) -> Option<(PutWord, &[TokenText])>
    ensures value { put_first texts.now ≡ option_map (λ x. (put_view x.0, x.1.now)) result }
    ensures place { IfSome result (λ x. length x.1.now + 1 ≡ length texts.now) }
{
    let [TokenText::Word(name), rest @ ..] = texts else {
        return None;
    };
    if is_name(name, b"SKIP") {
        Some((PutWord::Skip, rest))
    } else if is_name(name, b"LIST") {
        Some((PutWord::List, rest))
    } else {
        None
    }
}

/// TO, BY or REPEAT, if it stands first, and the tokens after it.
#[tactic(auto, unfolding(crate::specs::StatementReading::range_first, crate::specs::StatementReading::range_word))]
pub fn range_first(texts: &[TokenText]) -> Option<(RangeWord, &[TokenText])>
    ensures value { range_first texts.now ≡ option_map (λ x. (range_view x.0, x.1.now)) result }
    ensures place { IfSome result (λ x. length x.1.now + 1 ≡ length texts.now) }
{
    let [TokenText::Word(name), rest @ ..] = texts else {
        return None;
    };
    if is_name(name, b"TO") {
        Some((RangeWord::To, rest))
    } else if is_name(name, b"BY") {
        Some((RangeWord::By, rest))
    } else if is_name(name, b"REPEAT") {
        Some((RangeWord::Repeat, rest))
    } else {
        None
    }
}

/// OPTIONS, RETURNS or RECURSIVE, if it stands first, and the tokens after it.
#[tactic(auto, unfolding(crate::specs::StatementReading::option_first, crate::specs::StatementReading::option_word))]
pub fn option_first(texts: &[TokenText]) -> Option<(OptionWord, &[TokenText])>
    ensures value { option_first texts.now ≡ option_map (λ x. (option_view x.0, x.1.now)) result }
    ensures place { IfSome result (λ x. length x.1.now + 1 ≡ length texts.now) }
{
    let [TokenText::Word(name), rest @ ..] = texts else {
        return None;
    };
    if is_name(name, b"OPTIONS") {
        Some((OptionWord::Options, rest))
    } else if is_name(name, b"RETURNS") {
        Some((OptionWord::Returns, rest))
    } else if is_name(name, b"RECURSIVE") {
        Some((OptionWord::Recursive, rest))
    } else {
        None
    }
}
