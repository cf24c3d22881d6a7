//! The words of the command line.
ghost use Rattle.std.specs.Prelude.{◌≡◌, map};
ghost use Rattle.std.specs.String.{string_bytes};
ghost use Rattle.clap.specs.Words.{HasKind, Kinds};
ghost use Rattle.pli_bench.specs.CommandLine.{Reads, Refuses};
ghost use Rattle.pli_bench.specs.declared.arguments.ArgumentsError.TheVariants.{OutOfMemory};

use clap::error::ErrorKind;
use clap::{Arg, ArgAction, Command, Error, value_parser};
use std::alloc::{AllocError, Global};

/// The steps of a bare RUN where no word says otherwise (own).
pub const DEFAULT_STEPS: u64 = 1_000_000;

/// The greatest number of steps that a word or a command can name (own).
pub const STEPS_LIMIT: i64 = 999_999_999_999_999_999;

/// What the words say.
#[derive(Clone, Copy)]
pub struct Arguments {
    /// The steps of a bare RUN.
    pub steps: u64,
}

/// Why words say nothing: the text for the user, or that memory was refused.
#[derive(Debug, Drop, thiserror::Error)]
pub enum ArgumentsError {
    #[error("{0}")]
    Usage(String),
    #[error("out of memory")]
    OutOfMemory,
}

impl From<AllocError> for ArgumentsError {
    ghost from_gives = { λ _ e. e ≡ OutOfMemory };

    fn from(_error: AllocError) -> ArgumentsError {
        ArgumentsError::OutOfMemory
    }
}

fn usage(alloc: Global, error: Error) -> ArgumentsError
    ensures { (kinds : Kinds) → HasKind kinds error → Refuses kinds result }
{
    if error.kind() == ErrorKind::OutOfMemory {
        return ArgumentsError::OutOfMemory;
    }
    match error.to_string(alloc) {
        Ok(text) => ArgumentsError::Usage(text),
        Err(_) => ArgumentsError::OutOfMemory,
    }
}

/// Reads the words after the program's name: `--steps N`, or none.
pub fn read_arguments(alloc: Global, words: &[String]) -> Result<Arguments, ArgumentsError>
    ensures { Reads (map string_bytes words.now) result }
{
    let steps = Arg::new(alloc, "steps")
        .long("steps")
        .value_name("N")
        .help("The steps of a bare RUN")
        .action(ArgAction::Set)
        .value_parser(value_parser!(u64).range(..=STEPS_LIMIT))
        .default_value("1000000");
    let command = Command::new(alloc, "pliwb")
        .about("The workbench: commands from standard input, answers to standard output")
        .no_binary_name(true)
        .arg(steps)?;
    match command.try_get_matches_from(words) {
        Ok(matches) => Ok(Arguments {
            steps: matches.get_one::<u64>("steps").unwrap_or(DEFAULT_STEPS),
        }),
        Err(error) => Err(usage(alloc, error)),
    }
}
