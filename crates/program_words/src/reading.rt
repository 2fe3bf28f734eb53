//! Reads the words of the command line.

ghost use Rattle.std.specs.Prelude.{◌≡◌, true, IfOk, IfErr, OnOk, [], Some, codes, option_map, string_bytes};
ghost use Rattle.clap.specs.Words.{found_of, first_of, fault_of, kind_of, rows_of, subcommand_of, subcommand_rows_of, takes};
ghost use Rattle.clap.specs.Walk.{texts};
ghost use Rattle.program_words.specs.Program.{aplsheet};
ghost use Rattle.program_words.specs.Asked.{HasBadName, HasNoName, IsNotBadWords, IsNotText, IsRefusalOf, AsksForTable, Means};
ghost use Rattle.program_words.specs.Matched.{IsForName, IsRefusalFor, HasTableWords, IsWholeTable, has_word};
ghost use Rattle.program_words.specs.declared.reading.WordsFault.TheVariants.{NoMemory};

use crate::command::program;
use clap::error::ErrorKind;
use clap::{ArgMatches, Error};
use names::Name;
use std::alloc::{AllocError, Global};

/// The content of the words.
#[derive(Debug, Drop)]
pub struct Words {
    /// A table to read before the lines: its name, its file, and true if the first record of the file is a header.
    pub table: Option<(Name, String, bool)>,
    /// The file of the lines, or `None` for standard input.
    pub script: Option<String>,
}

/// The reason why words are refused.
#[derive(Debug, Drop)]
pub enum WordsFault {
    /// The allocator refused memory.
    NoMemory,
    /// The name of the table is not a name.
    BadName,
    /// The words do not fit the command, or ask for help. The error has the text for the user.
    BadWords(Error),
}

impl From<AllocError> for WordsFault {
    ghost from_gives = { λ _ e. e ≡ NoMemory };

    fn from(_error: AllocError) -> WordsFault {
        WordsFault::NoMemory
    }
}

/// Reads the words of the command line, the name of the program first. Words with a fault, by the exact meaning of `clap`, are always refused.
/// Words without one are refused only if memory runs out or the name of the table is not a name.
pub fn read_words(alloc: Global, words: &[&str]) -> Result<Words, WordsFault>
    ensures ok { IfOk result (Means (subcommand_of aplsheet (texts words.now))) }
    ensures faultless { OnOk result (fault_of aplsheet (texts words.now) ≡ []) }
    ensures refused { IfErr result (IsRefusalOf (texts words.now)) }
    ensures taken { takes aplsheet (texts words.now) ≡ true → IfErr result IsNotBadWords }
{
    let command = program(alloc)?;
    match command.try_get_matches_from(words) {
        Ok(matches) => words_of(alloc, &matches),
        Err(error) => Err(refusal(error)),
    }
}

/// Returns the refusal of words of which one is not UTF-8 text and so cannot be passed to `read_words`.
pub fn not_text(alloc: Global) -> WordsFault
    ensures { IsNotText result }
{
    match not_text_error(alloc) {
        Ok(error) => WordsFault::BadWords(error),
        Err(AllocError) => WordsFault::NoMemory,
    }
}

/// Makes the error for a word that is not text.
fn not_text_error(alloc: Global) -> Result<Error, AllocError>
    ensures { IfOk result (λ e. kind_of e ≡ ErrorKind.InvalidValue) }
{
    let mut command = program(alloc)?;
    command.error(ErrorKind::InvalidValue, "a word is not UTF-8 text")
}

/// Converts an error of `clap` to a refusal.
fn refusal(error: Error) -> WordsFault
    ensures { IsRefusalFor (kind_of error) result }
{
    match error.kind() {
        ErrorKind::OutOfMemory => WordsFault::NoMemory,
        _ => WordsFault::BadWords(error),
    }
}

/// Reads the words that `clap` has matched.
fn words_of(alloc: Global, matches: &ArgMatches<'_>) -> Result<Words, WordsFault>
    requires { IsWholeTable (subcommand_rows_of matches.now) }
    ensures ok { IfOk result (Means (subcommand_rows_of matches.now)) }
    ensures bad_name { IfErr result (IsForName (HasBadName (subcommand_rows_of matches.now))) }
{
    let Some((command, values)) = matches.subcommand() else {
        return Ok(Words {
            table: None,
            script: None,
        });
    };
    let script = script_of(alloc, values)?;
    if command != "table" {
        return Ok(Words {
            table: None,
            script,
        });
    }
    let table = table_of(alloc, values)?;
    Ok(Words {
        table: Some(table),
        script,
    })
}

/// Copies the script, if it is given.
fn script_of(alloc: Global, values: &ArgMatches<'_>) -> Result<Option<String>, AllocError>
    ensures { IfOk result (λ script. option_map string_bytes script ≡ first_of (codes "SCRIPT") (rows_of (found_of values.now))) }
{
    match values.get_str("SCRIPT") {
        None => Ok(None),
        Some(script) => {
            let script = String::from_str(alloc, script)?;
            Ok(Some(script))
        }
    }
}

/// Reads the table from the values of `table`.
fn table_of(alloc: Global, values: &ArgMatches<'_>) -> Result<(Name, String, bool), WordsFault>
    requires { HasTableWords (rows_of (found_of values.now)) }
    ensures ok { IfOk result (λ t. AsksForTable (rows_of (found_of values.now)) (t.0, string_bytes t.1, t.2)) }
    ensures bad_name { IfErr result (IsForName (HasNoName (rows_of (found_of values.now)))) }
{
    let Some(name) = Name::read(required(values, "NAME")) else {
        return Err(WordsFault::BadName);
    };
    let file = String::from_str(alloc, required(values, "FILE"))?;
    let header = values.get_flag("header");
    Ok((name, file, header))
}

/// Returns the value of a required word.
fn required<'a>(values: &ArgMatches<'a>, id: &str) -> &'a str
    requires { has_word id.now (rows_of (found_of values.now)) ≡ true }
    ensures { first_of id.now (rows_of (found_of values.now)) ≡ Some result.now }
{
    values.get_str(id).unwrap()
}
