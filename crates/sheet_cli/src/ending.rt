//! The result of the program.

ghost use Rattle.std.specs.Prelude.{◌≡◌, true, IfOk, IfErr, OnOk, []};
ghost use Rattle.clap.specs.Words.{fault_of, subcommand_of, takes};
ghost use Rattle.clap.specs.Walk.{texts};
ghost use Rattle.program_words.specs.Asked.{IsNotBadWords, IsRefusalOf, Means};
ghost use Rattle.program_words.specs.Program.{aplsheet};
ghost use Rattle.sheet_cli.specs.Endings.{OfWords, ending_of, ending_unread, status_of, told_of};
ghost use Rattle.sheet_cli.specs.declared.ending.Ending.TheVariants.{Run, Table};

use crate::host::NotRead;
use crate::run_loop::RunFault;
use array_text::TableFault;
use clap::Error;
use program_words::{Words, WordsFault, read_words};
use std::alloc::Global;
use std::fmt;

/// The result of the program.
#[derive(Debug, Drop)]
pub enum Ending {
    /// Everything that the arguments ask for is done.
    Done,
    /// The run stopped early.
    Run(RunFault),
    /// The table file is not a table.
    Table(TableFault),
    /// The table file cannot be read, or the script cannot be opened.
    CannotRead,
    /// The allocator refused memory outside the run and the table.
    NoMemory,
    /// The table's name is not a name.
    BadName,
    /// The arguments are not the program's, or ask for help. The error has the text for the user.
    BadWords(Error),
}

impl From<WordsFault> for Ending {
    ghost from_gives = { λ fault e. e ≡ ending_of fault };

    fn from(fault: WordsFault) -> Ending {
        match fault {
            WordsFault::NoMemory => Ending::NoMemory,
            WordsFault::BadName => Ending::BadName,
            WordsFault::BadWords(error) => Ending::BadWords(error),
        }
    }
}

impl From<NotRead> for Ending {
    ghost from_gives = { λ why e. e ≡ ending_unread why };

    fn from(why: NotRead) -> Ending {
        match why {
            NotRead::NoMemory => Ending::NoMemory,
            NotRead::CannotRead => Ending::CannotRead,
        }
    }
}

impl From<RunFault> for Ending {
    ghost from_gives = { λ fault e. e ≡ Run fault };

    fn from(fault: RunFault) -> Ending {
        Ending::Run(fault)
    }
}

impl From<TableFault> for Ending {
    ghost from_gives = { λ fault e. e ≡ Table fault };

    fn from(fault: TableFault) -> Ending {
        Ending::Table(fault)
    }
}

impl fmt::Display for Ending {
    ghost output = { told_of };

    fn fmt<W: fmt::Write>(&self, f: &mut fmt::Formatter<W>) -> fmt::Result {
        match self {
            Ending::Done => Ok(()),
            Ending::Run(RunFault::Read) => f.write_str("READ FAULT\n"),
            Ending::Run(RunFault::Write) => f.write_str("WRITE FAULT\n"),
            Ending::Table(TableFault::Field { row, field }) => {
                write!(f, "TABLE ERROR AT RECORD {row} FIELD {field}\n")
            }
            Ending::Table(TableFault::Length { row }) => {
                write!(f, "TABLE ERROR AT RECORD {row}\n")
            }
            Ending::Table(TableFault::Limit) => f.write_str("LIMIT ERROR\n"),
            Ending::CannotRead => f.write_str("CANNOT READ FILE\n"),
            Ending::BadName => f.write_str("BAD NAME\n"),
            Ending::BadWords(error) => error.fmt(f),
            _ => f.write_str("NO MEMORY\n"),
        }
    }
}

/// Returns the exit status: 0 if all is done, 2 if the arguments or the name are refused, otherwise 1.
pub fn status(ending: &Ending) -> u8
    ensures { result ≡ status_of ending.now }
{
    match ending {
        Ending::Done => 0,
        Ending::BadName | Ending::BadWords(_) => 2,
        _ => 1,
    }
}

/// Reads the program's arguments; its own name comes first. Arguments without a fault by `clap`'s exact meaning fail only for want of memory or for
/// a bad table name. Arguments with a fault always fail.
pub fn words(alloc: Global, words: &[&str]) -> Result<Words, Ending>
    ensures ok { IfOk result (Means (subcommand_of aplsheet (texts words.now))) }
    ensures faultless { OnOk result (fault_of aplsheet (texts words.now) ≡ []) }
    ensures refused { IfErr result (OfWords (IsRefusalOf (texts words.now))) }
    ensures taken { takes aplsheet (texts words.now) ≡ true → IfErr result (OfWords IsNotBadWords) }
{
    let words = read_words(alloc, words)?;
    Ok(words)
}
