// What the words ask for.
ghost use Rattle.std.specs.Prelude.{◌≡◌, ◌≢◌, None, Some, false, map, string_bytes, option_map, IfOk};
ghost use Rattle.std.specs.List.{list_any};
ghost use Rattle.clap.specs.Words.{kind_of};
ghost use Rattle.eleos_args.specs.Commands.{check_command, command_by, command_of, is_flag};
ghost use Rattle.eleos_args.specs.Commands.{single_command, valued_command};

use crate::program::{VALUE, program};
use crate::{ArgsRefused, Command};
use clap::Error;
use clap::error::ErrorKind;
use eleos_texts::fields::number_up_to;
use std::alloc::Global;

/// Reads the words that follow the program's name. A word that begins with a hyphen is refused
/// before `clap` sees the words, which has meanings of its own for these.
///
/// # Errors
/// `Usage` where the words are none of the program's commands, `NoMemory` for want of memory. The
/// words themselves stand in neither.
pub fn read_words(alloc: Global, words: &[String]) -> Result<Command, ArgsRefused>
    ensures command { IfOk result (λ command.
        command_of (map (λ word. string_bytes word) words.now) ≡ Some command) }
    ensures usage { result ≡ Err ArgsRefused.Usage
        → command_of (map (λ word. string_bytes word) words.now) ≡ None }
{
    if has_flag(words) {
        return Err(ArgsRefused::Usage);
    }
    let (word, value) = asked(alloc, words)?;
    command_by(word, value).ok_or(ArgsRefused::Usage)
}

/// One of the words begins with a hyphen.
fn has_flag(words: &[String]) -> bool
    ensures { result ≡ list_any (λ word. is_flag (string_bytes word)) words.now }
{
    words.iter().any(|word| is_flag(word))
}

/// The word begins with a hyphen.
fn is_flag(word: &String) -> bool
    ensures { result ≡ is_flag (string_bytes word.now) }
{
    matches!(word.as_bytes(), [b'-', ..])
}

/// The command that the words name, and its value.
fn asked<'a>(alloc: Global, words: &'a [String]) -> Result<(&'a str, Option<&'a str>), ArgsRefused>
    requires { list_any is_flag (map (λ word. string_bytes word) words.now) ≡ false }
    ensures asked { IfOk result (λ asked.
        command_of (map (λ word. string_bytes word) words.now)
        ≡ command_by asked.0.now (option_map (λ value. value.now) asked.1)) }
    ensures usage { result ≡ Err ArgsRefused.Usage
        → command_of (map (λ word. string_bytes word) words.now) ≡ None }
{
    let matches = match program(alloc)?.try_get_matches_from(words) {
        Ok(matches) => matches,
        Err(error) => return Err(refusal(&error)),
    };
    match matches.subcommand() {
        Some((word, inner)) => Ok((word, inner.get_str(VALUE))),
        None => unreachable!(),
    }
}

/// Why `clap` did not take the words.
fn refusal(error: &Error) -> ArgsRefused
    ensures { result ≡ ArgsRefused.Usage → kind_of error.now ≢ ErrorKind.OutOfMemory }
{
    if error.kind() == ErrorKind::OutOfMemory {
        ArgsRefused::NoMemory
    } else {
        ArgsRefused::Usage
    }
}

/// What the word asks for, alone or with a value.
fn command_by(word: &str, value: Option<&str>) -> Option<Command>
    ensures { result ≡ command_by word.now (option_map (λ value. value.now) value.entry) }
{
    match value {
        None => single_command(word),
        Some(value) => valued_command(word, value),
    }
}

/// What a word asks for that stands alone.
fn single_command(word: &str) -> Option<Command>
    ensures { result ≡ single_command word.now }
{
    match word {
        "run" => Some(Command::Run),
        "replay" => Some(Command::Replay),
        "serve" => Some(Command::Serve),
        "gcm" => Some(Command::Gcm),
        _ => None,
    }
}

/// What a word asks for with its value.
fn valued_command(word: &str, value: &str) -> Option<Command>
    ensures { result ≡ valued_command word.now value.now }
{
    match word {
        "check" => check_command(value),
        "gen" => number_up_to(value.as_bytes(), u64::MAX).map(|n| Command::Gen { n }),
        "work" => number_up_to(value.as_bytes(), u64::MAX).map(|n| Command::Work { n }),
        _ => None,
    }
}

/// How a log is to be checked.
fn check_command(mode: &str) -> Option<Command>
    ensures { result ≡ check_command mode.now }
{
    match mode {
        "plain" => Some(Command::CheckPlain),
        "full" => Some(Command::CheckFull),
        _ => None,
    }
}
