//! Reading a command line.
ghost use Rattle.std.specs.Prelude.{◌≡◌, ◌≤◌, ◌<◌, ◌^◌, IfSome, IsTrue, length, option_map};
ghost use Rattle.std.specs.Option.{option_copied};
ghost use Rattle.std.specs.List.{list_all, position};
ghost use Rattle.pli_base.specs.Name.{is_digit};
ghost use Rattle.pli_commands.specs.Commands.{is_blank, first_word, after_blank, is_word, number_of, kind_of_word};
ghost use Rattle.pli_commands.specs.Commands.{numbered_text, numbered_of, add_of, insert_of, replace_of, remove_of};
ghost use Rattle.pli_commands.specs.Commands.{run_of};
ghost use Rattle.pli_commands.specs.Commands as read;
ghost use Rattle.pli_commands.specs.CommandLines.{command_of};
ghost use Rattle.pli_commands.specs.views.CommandView.{command_view};

use pli_base::{Name, decimal_value, is_digit};
use pli_members::MemberKind;

/// The greatest number of bytes in a command (own).
pub const LINE_LIMIT: usize = 200;

/// The greatest number of digits in a line's number, and in a number of steps (own).
const LINE_DIGITS: usize = 9;

const STEP_DIGITS: usize = 18;

/// The member that a command names.
#[derive(Clone, Copy)]
pub struct MemberName {
    pub name: Name,
}

/// A command of the session (own).
#[derive(Clone, Copy)]
pub enum Command<'a> {
    /// A new member of this kind, without lines.
    Add {
        member: MemberName,
        kind: MemberKind,
    },
    /// A member goes.
    Delete(MemberName),
    /// A new line after the line of this number, 0 for the front.
    Insert {
        member: MemberName,
        after: u32,
        text: &'a [u8],
    },
    /// Another text for the line of this number, 1 for the first.
    Replace {
        member: MemberName,
        number: u32,
        text: &'a [u8],
    },
    /// The lines from the first to the last go.
    Remove {
        member: MemberName,
        first: u32,
        last: u32,
    },
    /// The lines of a member are listed.
    ListLines(MemberName),
    /// The members are listed.
    ListMembers,
    /// The source members are built.
    Build,
    /// How many units the last build has expanded and compiled.
    ListWork,
    /// The bytes of the module that stands are shown.
    Dump,
    /// The module that stands is run with so many steps, or with the bench's own number.
    Run(Option<u64>),
    /// The session ends.
    Quit,
}

/// The command that `line` spells, which has no line end. None where it spells no command: it is over 200 bytes; its
/// first word is no command's, in either case; a blank more stands between words or after the last; a name or a number
/// is of a wrong form; or a word is missing or too many (own).
pub fn read_command(line: &[u8]) -> Option<Command<'_>>
    ensures { option_map command_view result ≡ command_of line.now }
{
    read_words(line)
}

/// The same, word by word.
fn read_words(line: &[u8]) -> Option<Command<'_>>
    ensures { option_map command_view result ≡ read.command_of line.now }
{
    if line.len() > LINE_LIMIT {
        return None;
    }
    let (word, rest) = split_word(line);
    if is_word(b"ADD", word) {
        read_add(rest?)
    } else if is_word(b"DELETE", word) {
        Some(Command::Delete(MemberName {
            name: Name::read(rest?)?,
        }))
    } else if is_word(b"INSERT", word) {
        read_insert(rest?)
    } else if is_word(b"REPLACE", word) {
        read_replace(rest?)
    } else if is_word(b"REMOVE", word) {
        read_remove(rest?)
    } else if is_word(b"LIST", word) {
        Some(Command::ListLines(MemberName {
            name: Name::read(rest?)?,
        }))
    } else if is_word(b"MEMBERS", word) {
        rest.is_none().then_some(Command::ListMembers)
    } else if is_word(b"BUILD", word) {
        rest.is_none().then_some(Command::Build)
    } else if is_word(b"LEDGER", word) {
        rest.is_none().then_some(Command::ListWork)
    } else if is_word(b"DUMP", word) {
        rest.is_none().then_some(Command::Dump)
    } else if is_word(b"RUN", word) {
        read_run(rest)
    } else if is_word(b"QUIT", word) {
        rest.is_none().then_some(Command::Quit)
    } else {
        None
    }
}

/// Where the first blank stands.
fn blank_place(text: &[u8]) -> Option<usize>
    ensures { result ≡ position is_blank text.now }
{
    text.iter().position(|byte| *byte == b' ')
}

/// A text's first word, and what stands after the first blank.
fn split_word(text: &[u8]) -> (&[u8], Option<&[u8]>)
    ensures word { result.0.now ≡ first_word text.now }
    ensures rest { option_copied result.1 ≡ after_blank text.now }
{
    match blank_place(text) {
        None => (text, None),
        Some(at) => (&text[..at], Some(&text[at + 1..])),
    }
}

/// Whether `text` is `word`, in either case.
fn is_word(word: &[u8], text: &[u8]) -> bool
    ensures { result ≡ is_word word.now text.now }
{
    text.eq_ignore_ascii_case(word)
}

fn all_digits(text: &[u8]) -> bool
    ensures { result ≡ list_all is_digit text.now }
{
    text.iter().all(|byte| is_digit(*byte))
}

/// The number that one to `limit` digits spell.
fn read_number(digits: &[u8], limit: usize) -> Option<u64>
    requires { limit ≤ 18 }
    ensures number { result ≡ number_of limit digits.now }
    ensures below { IfSome result (λ n. n < 10 ^ limit) }
{
    if digits.is_empty() || digits.len() > limit || !all_digits(digits) {
        return None;
    }
    Some(decimal_value(digits))
}

/// The kind that a word names.
fn read_kind(word: &[u8]) -> Option<MemberKind>
    ensures { result ≡ kind_of_word word.now }
{
    if is_word(b"SOURCE", word) {
        Some(MemberKind::Source)
    } else if is_word(b"INCLUDE", word) {
        Some(MemberKind::Include)
    } else {
        None
    }
}

/// What stands after `ADD`.
fn read_add(text: &[u8]) -> Option<Command<'_>>
    ensures { option_map command_view result ≡ add_of text.now }
{
    let (word, rest) = split_word(text);
    let name = Name::read(word);
    let kind = read_kind(rest?)?;
    Some(Command::Add {
        member: MemberName { name: name? },
        kind,
    })
}

/// A line's number in a member, and a text for it, which is empty where nothing stands after the number.
fn read_numbered(text: &[u8]) -> Option<(MemberName, u32, &[u8])>
    ensures { option_map (λ n. numbered_text n.0.name n.1 n.2.now) result ≡ numbered_of text.now }
{
    let (word, rest) = split_word(text);
    let name = Name::read(word);
    let (digits, line) = split_word(rest?);
    let number = read_number(digits, LINE_DIGITS)?;
    Some((
        MemberName { name: name? },
        number as u32,
        line.unwrap_or(b""),
    ))
}

/// What stands after `INSERT`.
fn read_insert(text: &[u8]) -> Option<Command<'_>>
    ensures { option_map command_view result ≡ insert_of text.now }
{
    let Some((member, after, text)) = read_numbered(text) else {
        return None;
    };
    Some(Command::Insert {
        member,
        after,
        text,
    })
}

/// What stands after `REPLACE`.
fn read_replace(text: &[u8]) -> Option<Command<'_>>
    ensures { option_map command_view result ≡ replace_of text.now }
{
    let Some((member, number, text)) = read_numbered(text) else {
        return None;
    };
    Some(Command::Replace {
        member,
        number,
        text,
    })
}

/// What stands after `REMOVE`.
fn read_remove(text: &[u8]) -> Option<Command<'_>>
    ensures { option_map command_view result ≡ remove_of text.now }
{
    let (word, rest) = split_word(text);
    let name = Name::read(word);
    let (digits, rest) = split_word(rest?);
    let first = read_number(digits, LINE_DIGITS);
    let last = read_number(rest?, LINE_DIGITS)?;
    Some(Command::Remove {
        member: MemberName { name: name? },
        first: first? as u32,
        last: last as u32,
    })
}

/// What stands after `RUN`.
fn read_run(rest: Option<&[u8]>) -> Option<Command<'_>>
    ensures { option_map command_view result ≡ run_of (option_copied rest.entry) }
{
    match rest {
        None => Some(Command::Run(None)),
        Some(digits) => Some(Command::Run(Some(read_number(digits, STEP_DIGITS)?))),
    }
}
