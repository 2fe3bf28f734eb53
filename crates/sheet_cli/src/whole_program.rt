//! The whole program: arguments, a table, a script, lines, and the result.

ghost use Rattle.std.specs.Prelude.{◌≡◌, IfOk, IfErr, map, string_bytes};
ghost use Rattle.clap.specs.Walk.{texts};
ghost use Rattle.sheet_cli.specs.Programs.{AsksFor, RefusesWords, GivesTable, GivesNoTable, BeginsWith, FailsToBegin};
ghost use Rattle.sheet_cli.specs.Programs.{LinesComeTo, ComesTo, Performs, first_state};
ghost use Rattle.sheet_cli.specs.Endings.{done_or_ending};
ghost use Rattle.sheet_cli.specs.declared.ending.Ending.TheVariants.{NoMemory};

use crate::device::{Failed, Sink, Source};
use crate::ending::{Ending, status, words};
use crate::host::{Host, NoWords, Teller};
use crate::run_loop::run;
use array_text::read_table;
use arrays_core::Array;
use program_words::{Words, not_text};
use sheet_desk::Desk;
use sheet_recalc::Sheet;
use std::alloc::Global;

/// Borrows the arguments.
fn lent<'a>(alloc: Global, all: &'a [String]) -> Result<Vec<&'a str>, Ending>
    ensures ok { IfOk result (λ words. texts words.items ≡ map string_bytes all.now) }
    ensures err { IfErr result (λ ending. ending ≡ NoMemory) }
{
    let mut words = Vec::new(alloc);
    for word in all {
        if words.push(word.as_str()).is_err() {
            return Err(Ending::NoMemory);
        }
    }
    Ok(words)
}

/// Reads the arguments of the host.
fn asked_for<H: Host>(alloc: Global, host: &H) -> Result<Words, Ending>
    ensures ok { IfOk result (AsksFor (H.value host.now)) }
    ensures err { IfErr result (RefusesWords (H.value host.now)) }
{
    let all = match host.words() {
        Ok(all) => all,
        Err(NoWords::NoMemory) => return Err(Ending::NoMemory),
        Err(NoWords::NotText) => return Err(Ending::from(not_text(alloc))),
    };
    let lent = lent(alloc, all.as_slice())?;
    words(alloc, lent.as_slice())
}

/// Reads the table of a file.
fn table_of<H: Host>(alloc: Global, host: &H, path: &str, header: bool) -> Result<Array, Ending>
    ensures ok { IfOk result (GivesTable (H.value host.now) path.now header) }
    ensures err { IfErr result (GivesNoTable (H.value host.now) path.now header) }
{
    let bytes = host.read(path)?;
    let array = read_table(alloc, bytes.as_slice(), header)?;
    Ok(array)
}

/// Makes the first sheet: empty, or with the one table that the arguments ask for.
fn first_sheet<H: Host>(alloc: Global, host: &H, asked: &Words) -> Result<Sheet, Ending>
    ensures ok { IfOk result (λ sheet. BeginsWith (H.value host.now) asked.now.table sheet.names) }
    ensures cost { IfOk result (λ sheet. sheet.cost ≡ 0) }
    ensures err { IfErr result (FailsToBegin (H.value host.now) asked.now.table) }
{
    let mut sheet = Sheet::new(alloc);
    let Some((name, path, header)) = &asked.table else {
        return Ok(sheet);
    };
    let array = table_of(alloc, host, path.as_str(), *header)?;
    // An empty sheet has room for one name.
    if sheet.put_array(*name, array).is_err() {
        return Err(Ending::NoMemory);
    }
    Ok(sheet)
}

/// Answers the lines of a source, from a sheet with cost 0.
fn answer_lines<R: Source, W: Sink>(
    alloc: Global,
    sheet: Sheet,
    source: &mut R,
    sink: &mut W,
) -> Result<(), Ending>
    requires cost { sheet.cost ≡ 0 }
    ensures { LinesComeTo (record { remaining = R.remaining; has_failed = R.has_failed })
        (record { written = W.written; has_failed = W.has_failed; is_flushed = W.is_flushed })
        source.old source.new sink.old sink.new (first_state sheet.names) (done_or_ending result) }
{
    let mut desk = Desk::new(sheet);
    run(alloc, &mut desk, source, sink)?;
    Ok(())
}

/// Does everything that the arguments ask for.
fn perform<H: Host, R: Source, W: Sink>(
    alloc: Global,
    host: &H,
    input: &mut R,
    output: &mut W,
) -> Result<(), Ending>
    ensures { ComesTo (record {
      host = H.value host.now;
      inputs = record { remaining = R.remaining; has_failed = R.has_failed };
      scripts = record { remaining = H.File.remaining; has_failed = H.File.has_failed };
      outputs = record { written = W.written; has_failed = W.has_failed; is_flushed = W.is_flushed };
      input₁ = input.old;
      input₂ = input.new;
      output₁ = output.old;
      output₂ = output.new;
    }) (done_or_ending result) }
{
    let asked = asked_for(alloc, host)?;
    let sheet = first_sheet(alloc, host, &asked)?;
    let Some(path) = &asked.script else {
        return answer_lines(alloc, sheet, input, output);
    };
    match host.open(path.as_str()) {
        Ok(mut script) => answer_lines(alloc, sheet, &mut script, output),
        Err(Failed) => Err(Ending::CannotRead),
    }
}

/// Runs the whole program: does everything that the arguments ask for, reports an early end, and returns the exit status.
pub fn program<H: Host, R: Source, W: Sink, T: Teller>(
    alloc: Global,
    host: &H,
    input: &mut R,
    output: &mut W,
    teller: &mut T,
) -> u8
    ensures { Performs (record {
      host = H.value host.now;
      inputs = record { remaining = R.remaining; has_failed = R.has_failed };
      scripts = record { remaining = H.File.remaining; has_failed = H.File.has_failed };
      outputs = record { written = W.written; has_failed = W.has_failed; is_flushed = W.is_flushed };
      input₁ = input.old;
      input₂ = input.new;
      output₁ = output.old;
      output₂ = output.new;
    })
        (T.told teller.old) (T.told teller.new) (T.has_failed teller.new) result }
{
    let ending = match perform(alloc, host, input, output) {
        Ok(()) => Ending::Done,
        Err(ending) => ending,
    };
    let _ = teller.tell(&ending);
    status(&ending)
}
