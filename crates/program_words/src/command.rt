//! The command of the program, with its help.

ghost use Rattle.std.specs.Prelude.{◌≡◌, codes, false, IfOk, IsOkAnd};
ghost use Rattle.clap.specs.Words.{AddsSubcommand, app_of, new_app, new_rule, rule_of};
ghost use Rattle.clap.specs.declared.builder.command.Command.TheViews.{out-Command};
ghost use Rattle.program_words.specs.Program.{aplsheet, flag_rule, required_rule, run_command, table_command};

use clap::{Arg, ArgAction, Command};
use std::alloc::{AllocError, Global};

/// Makes a required word.
fn required_word<'a>(alloc: Global, id: &'a str, help: &'a str) -> Arg<'a>
    ensures rule { rule_of result ≡ required_rule id.entry.now }
    ensures local { result.global ≡ false }
{
    Arg::new(alloc, id).required(true).help(help)
}

/// Makes the script, an optional word.
fn script_word<'a>(alloc: Global) -> Arg<'a>
    ensures rule { rule_of result ≡ new_rule (codes "SCRIPT") }
    ensures local { result.global ≡ false }
{
    Arg::new(alloc, "SCRIPT").help("A file of lines; without it they come from standard input")
}

/// Makes the flag for a table whose first record is a header.
fn header_flag<'a>(alloc: Global) -> Arg<'a>
    ensures rule { rule_of result ≡ flag_rule (codes "header") }
    ensures local { result.global ≡ false }
{
    Arg::new(alloc, "header")
        .long("header")
        .action(ArgAction::SetTrue)
        .help("The first record of FILE holds titles, not numbers")
}

/// Makes a command with its help, without words or subcommands.
fn described<'a>(alloc: Global, name: &'a str, about: &'a str, after_help: &'a str) -> Command<'a>
    ensures app { app_of result ≡ new_app name.entry.now }
    ensures local { (out-Command result).has_globals ≡ false }
{
    Command::new(alloc, name)
        .about(about)
        .after_help(after_help)
}

/// `run [SCRIPT]`
fn run_command<'a>(alloc: Global) -> Result<Command<'a>, AllocError>
    ensures app { IfOk result (λ c. app_of c ≡ run_command) }
    ensures local { IfOk result (λ c. (out-Command c).has_globals ≡ false) }
{
    described(alloc, "run", RUN_ABOUT, RUN_EXAMPLE).arg(script_word(alloc))
}

/// `table NAME FILE [SCRIPT] --header`
fn table_command<'a>(alloc: Global) -> Result<Command<'a>, AllocError>
    ensures app { IfOk result (λ c. app_of c ≡ table_command) }
    ensures local { IfOk result (λ c. (out-Command c).has_globals ≡ false) }
{
    let words = vec![in alloc;
        required_word(alloc, "NAME", NAME_HELP),
        required_word(alloc, "FILE", FILE_HELP),
        script_word(alloc),
        header_flag(alloc),
    ]?;
    described(alloc, "table", TABLE_ABOUT, TABLE_EXAMPLE).args(words)
}

/// Adds a subcommand, if memory sufficed for both.
fn with_command<'a>(
    command: Result<Command<'a>, AllocError>,
    added: Result<Command<'a>, AllocError>,
) -> Result<Command<'a>, AllocError>
    ensures { IfOk result (λ r. IsOkAnd command.entry (λ c. IsOkAnd added.entry (λ a. AddsSubcommand c a r))) }
{
    command?.subcommand(added?)
}

/// Makes the command of the program.
pub(crate) fn program<'a>(alloc: Global) -> Result<Command<'a>, AllocError>
    ensures { IfOk result (λ c. app_of c ≡ aplsheet) }
{
    let bare = described(alloc, "aplsheet", ABOUT, EXAMPLES).bin_name("aplsheet");
    let with_run = with_command(bare, run_command(alloc));
    with_command(with_run, table_command(alloc))
}

const ABOUT: &str = "A live sheet of APL array formulas.

Each line binds a name to a formula or to data, edits one item of data, or is an expression, whose
value is shown. Values are always those that working out all formulas from scratch would give.";

const EXAMPLES: &str = "Without a command, the lines of standard input are answered.

Examples:
  aplsheet run plan.apl
  aplsheet table DEMAND demand.csv plan.apl --header";

const RUN_ABOUT: &str = "Answers the lines of SCRIPT, or of standard input";

const RUN_EXAMPLE: &str = "Example:
  aplsheet run plan.apl";

const TABLE_ABOUT: &str = "Puts the table in FILE under NAME, and then answers lines as run does";

const TABLE_EXAMPLE: &str = "Example:
  aplsheet table DEMAND demand.csv plan.apl --header";

const NAME_HELP: &str = "The name that the table gets: a letter, and then letters, digits and _";

const FILE_HELP: &str = "A file of whole numbers with commas between, one record a line";
