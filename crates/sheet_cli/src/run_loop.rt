//! The loop from a source to a sink.
ghost use Rattle.std.specs.Prelude.{◌≡◌, ◌+◌, ◌≤◌, ◌<◌, ◌^◌, ℕ, List, [], ◌++◌, length, take, slice_index, MatchOption, OnOk, OnErr, IfOk, IsErrOf, true};
ghost use Rattle.std.specs.Io.KnownBytes.{Appends};
ghost use Rattle.sheet_cli.specs.Answer.{state_of};
ghost use Rattle.sheet_cli.specs.Lines.{strip_bom, ended_lines};
ghost use Rattle.sheet_cli.specs.Progress.{line_after, most_kept, standing, AnswersLine, Feeds, StopsIn, Finishes, StopsAtEnd};
ghost use Rattle.sheet_cli.specs.Run.{Completes, BreaksOff, IsCut};

use crate::answer::answer;
use crate::device::{Failed, Sink, Source};
use crate::line_buffer::{KEPT, OpenLine};
use apl_tokens::Spanned;
use sheet_desk::Desk;
use std::alloc::{AllocError, Global};

/// The counts of a run.
#[derive(Clone, Copy, Debug, PartialEq, Eq)]
pub struct Tally {
    /// The answered lines.
    pub lines: u64,
    /// The lines that were answered `NO MEMORY`.
    pub refused_for_memory: u64,
}

/// The reason why a run stopped early.
#[derive(Clone, Copy, Debug, PartialEq, Eq)]
pub enum RunFault {
    /// The source failed, or gave as many bytes as can be counted.
    Read,
    /// The sink failed.
    Write,
    /// The line buffer was refused. Nothing was read or written.
    Memory,
}

/// Writes all bytes; a failed call has written a front part.
fn put_all<W: Sink>(sink: &mut W, bytes: &[u8]) -> Result<(), Failed>
    ensures ok { OnOk result (Appends (W.written sink.old) (W.written sink.new) bytes.now) }
    ensures err { OnErr result ((part : List ℕ) × (unwritten : List ℕ) × (bytes.now ≡ part ++ unwritten)
        × Appends (W.written sink.old) (W.written sink.new) part) }
    ensures fault { OnErr result (W.has_failed sink.new ≡ true) }
{
    let mut rest = bytes;
    while !rest.is_empty() {
        let n = sink.put(rest)?;
        rest = &rest[n..];
    }
    Ok(())
}

/// Returns the bytes without a byte order mark at their start.
#[tactic(auto, unfolding(crate::specs::Lines::strip_bom))]
fn strip_bom(bytes: &[u8]) -> &[u8]
    ensures { result.now ≡ strip_bom bytes.now }
{
    match bytes {
        [0xEF, 0xBB, 0xBF, rest @ ..] => rest,
        _ => bytes,
    }
}

/// Answers one line and counts it. `room` is reused for its tokens.
fn answer_line<W: Sink>(
    alloc: Global,
    desk: &mut Desk,
    sink: &mut W,
    tally: &mut Tally,
    room: &mut Vec<Spanned>,
    line: &[u8],
) -> Result<(), Failed>
    requires lines { tally.old.lines < u64.MAX }
    requires refused { tally.old.refused_for_memory < u64.MAX }
    ensures lines { tally.new.lines ≡ tally.old.lines + 1 }
    ensures refused { tally.new.refused_for_memory ≤ tally.old.refused_for_memory + 1 }
    ensures ok { OnOk result ((text : List ℕ) × Appends (W.written sink.old) (W.written sink.new) text
        × AnswersLine (state_of desk.old) line.now tally.old.refused_for_memory tally.new.refused_for_memory text (state_of desk.new)) }
    ensures err { OnErr result ((part : List ℕ) × (unwritten : List ℕ) × Appends (W.written sink.old) (W.written sink.new) part
        × AnswersLine (state_of desk.old) line.now tally.old.refused_for_memory tally.new.refused_for_memory (part ++ unwritten) (state_of desk.new)) }
    ensures fault { OnErr result (W.has_failed sink.new ≡ true) }
{
    tally.lines += 1;
    match answer(alloc, desk, room, line) {
        Ok(text) => put_all(sink, text.as_bytes()),
        Err(AllocError) => {
            tally.refused_for_memory += 1;
            put_all(sink, b"NO MEMORY\n")
        }
    }
}

/// The progress of a run.
#[derive(Drop)]
struct Progress {
    open_line: OpenLine,
    tally: Tally,
    /// Memory for the tokens of a line, reused for each line.
    room: Vec<Spanned>,
}

impl Progress {
    /// Returns the progress of a run that has read nothing.
    fn new(alloc: Global) -> Result<Progress, AllocError>
        ensures { IfOk result (λ p. (p.open_line ≡ []) × (p.tally ≡ record { lines = 0; refused_for_memory = 0 })) }
    {
        Ok(Progress {
            open_line: OpenLine::new(alloc)?,
            tally: Tally {
                lines: 0,
                refused_for_memory: 0,
            },
            room: Vec::new(alloc),
        })
    }
}

/// Returns a line without the byte order mark, if it is the first line.
fn stripped(kept: &[u8], lines: u64) -> &[u8]
    ensures { result.now ≡ line_after lines kept.now }
{
    if lines == 0 { strip_bom(kept) } else { kept }
}

/// Returns the first `KEPT` bytes.
fn kept_of(bytes: &[u8]) -> &[u8]
    ensures { result.now ≡ take most_kept bytes.now }
{
    if bytes.len() <= KEPT {
        return bytes;
    }
    &bytes[..KEPT]
}

/// Returns the number of bytes before the first LF.
fn find_line_feed(bytes: &[u8]) -> Option<usize>
    ensures { MatchOption result (ended_lines bytes.now ≡ [])
        (λ i. (i < length bytes.now) × (ended_lines (take i bytes.now) ≡ []) × (slice_index bytes.now i ≡ 10)) }
{
    let mut i = 0;
    while i < bytes.len() {
        if bytes[i] == b'\n' {
            return Some(i);
        }
        i += 1;
    }
    None
}

/// Consumes bytes up to the first LF, or all if there is none. Returns their number.
fn take_piece<W: Sink>(
    alloc: Global,
    desk: &mut Desk,
    sink: &mut W,
    progress: &mut Progress,
    bytes: &[u8],
) -> Result<usize, Failed>
    requires lines { progress.old.tally.lines < u64.MAX }
    requires refused { progress.old.tally.refused_for_memory < u64.MAX }
    ensures taken { IfOk result (λ n. (n ≤ length bytes.now) × (0 < length bytes.now → 0 < n)) }
    ensures lines { IfOk result (λ n. progress.new.tally.lines ≤ progress.old.tally.lines + n) }
    ensures refused { IfOk result (λ n. progress.new.tally.refused_for_memory ≤ progress.old.tally.refused_for_memory + n) }
    ensures ok { IfOk result (λ n. (text : List ℕ) × Appends (W.written sink.old) (W.written sink.new) text
        × Feeds (take n bytes.now) (standing progress.old.open_line progress.old.tally (state_of desk.old)) text (standing progress.new.open_line progress.new.tally (state_of desk.new))) }
    ensures err { OnErr result ((text : List ℕ) × Appends (W.written sink.old) (W.written sink.new) text
        × StopsIn bytes.now (standing progress.old.open_line progress.old.tally (state_of desk.old)) text (state_of desk.new)) }
    ensures fault { OnErr result (W.has_failed sink.new ≡ true) }
{
    let Some(end) = find_line_feed(bytes) else {
        progress.open_line.append(bytes);
        return Ok(bytes.len());
    };
    if progress.open_line.as_slice().is_empty() {
        // The line began in these bytes: it is read in place, without a copy.
        let line = stripped(kept_of(&bytes[..end]), progress.tally.lines);
        answer_line(
            alloc,
            desk,
            sink,
            &mut progress.tally,
            &mut progress.room,
            line,
        )?;
        return Ok(end + 1);
    }
    progress.open_line.append(&bytes[..end]);
    let line = stripped(progress.open_line.as_slice(), progress.tally.lines);
    answer_line(
        alloc,
        desk,
        sink,
        &mut progress.tally,
        &mut progress.room,
        line,
    )?;
    progress.open_line.clear();
    Ok(end + 1)
}

/// Consumes all bytes and answers the lines that end in them.
fn take_bytes<W: Sink>(
    alloc: Global,
    desk: &mut Desk,
    sink: &mut W,
    progress: &mut Progress,
    bytes: &[u8],
) -> Result<(), Failed>
    requires lines { progress.old.tally.lines + length bytes.now < 2 ^ 64 }
    requires refused { progress.old.tally.refused_for_memory + length bytes.now < 2 ^ 64 }
    ensures lines { OnOk result (progress.new.tally.lines ≤ progress.old.tally.lines + length bytes.now) }
    ensures refused { OnOk result (progress.new.tally.refused_for_memory ≤ progress.old.tally.refused_for_memory + length bytes.now) }
    ensures ok { OnOk result ((text : List ℕ) × Appends (W.written sink.old) (W.written sink.new) text
        × Feeds bytes.now (standing progress.old.open_line progress.old.tally (state_of desk.old)) text (standing progress.new.open_line progress.new.tally (state_of desk.new))) }
    ensures err { OnErr result ((text : List ℕ) × Appends (W.written sink.old) (W.written sink.new) text
        × StopsIn bytes.now (standing progress.old.open_line progress.old.tally (state_of desk.old)) text (state_of desk.new)) }
    ensures fault { OnErr result (W.has_failed sink.new ≡ true) }
{
    let mut rest = bytes;
    while !rest.is_empty() {
        let n = take_piece(alloc, desk, sink, progress, rest)?;
        rest = &rest[n..];
    }
    Ok(())
}

/// Answers a last line without LF, if it has a byte.
fn answer_last<W: Sink>(
    alloc: Global,
    desk: &mut Desk,
    sink: &mut W,
    progress: &mut Progress,
) -> Result<(), Failed>
    requires lines { progress.old.tally.lines < u64.MAX }
    requires refused { progress.old.tally.refused_for_memory < u64.MAX }
    ensures ok { OnOk result ((text : List ℕ) × Appends (W.written sink.old) (W.written sink.new) text
        × Finishes (standing progress.old.open_line progress.old.tally (state_of desk.old)) text progress.new.tally (state_of desk.new)) }
    ensures err { OnErr result ((text : List ℕ) × Appends (W.written sink.old) (W.written sink.new) text
        × StopsAtEnd (standing progress.old.open_line progress.old.tally (state_of desk.old)) text (state_of desk.new)) }
    ensures fault { OnErr result (W.has_failed sink.new ≡ true) }
{
    let line = stripped(progress.open_line.as_slice(), progress.tally.lines);
    if line.is_empty() {
        return Ok(());
    }
    answer_line(
        alloc,
        desk,
        sink,
        &mut progress.tally,
        &mut progress.room,
        line,
    )
}

/// Answers a last line without LF, if it has a byte, and flushes.
fn finish<W: Sink>(
    alloc: Global,
    desk: &mut Desk,
    sink: &mut W,
    progress: &mut Progress,
) -> Result<(), Failed>
    requires lines { progress.old.tally.lines < u64.MAX }
    requires refused { progress.old.tally.refused_for_memory < u64.MAX }
    ensures ok { OnOk result ((text : List ℕ) × Appends (W.written sink.old) (W.written sink.new) text
        × Finishes (standing progress.old.open_line progress.old.tally (state_of desk.old)) text progress.new.tally (state_of desk.new)) }
    ensures err { OnErr result ((text : List ℕ) × Appends (W.written sink.old) (W.written sink.new) text
        × StopsAtEnd (standing progress.old.open_line progress.old.tally (state_of desk.old)) text (state_of desk.new)) }
    ensures fault { OnErr result (W.has_failed sink.new ≡ true) }
    ensures flushed { OnOk result (W.is_flushed sink.new ≡ true) }
{
    answer_last(alloc, desk, sink, progress)?;
    sink.flush()
}

/// The greatest number of bytes that one `pull` asks for.
const CHUNK: usize = 4096;

/// Answers the lines of the source up to its end, and then flushes the sink. The answers to a chunk's lines are written before the next bytes are
/// read.
pub fn run<R: Source, W: Sink>(
    alloc: Global,
    desk: &mut Desk,
    source: &mut R,
    sink: &mut W,
) -> Result<Tally, RunFault>
    ensures ok { IfOk result (λ tally. Completes (R.remaining source.old) (R.remaining source.new) (W.written sink.old) (W.written sink.new)
        (state_of desk.old) (state_of desk.new) tally) }
    ensures flushed { OnOk result (W.is_flushed sink.new ≡ true) }
    ensures memory { IsErrOf result RunFault.Memory → (source.new ≡ source.old) × (sink.new ≡ sink.old) × (desk.new ≡ desk.old) }
    ensures read { IsErrOf result RunFault.Read → BreaksOff (R.remaining source.old) (R.remaining source.new) (W.written sink.old) (W.written sink.new)
        (R.has_failed source.new) (state_of desk.old) (state_of desk.new) }
    ensures write { IsErrOf result RunFault.Write → IsCut (R.remaining source.old) (R.remaining source.new) (W.written sink.old) (W.written sink.new)
        (W.has_failed sink.new) (state_of desk.old) (state_of desk.new) }
{
    let Ok(mut progress) = Progress::new(alloc) else {
        return Err(RunFault::Memory);
    };
    let mut chunk = [0u8; CHUNK];
    let mut bytes_read = 0;
    while bytes_read < u64::MAX {
        let room = (u64::MAX - bytes_read).min(CHUNK as u64) as usize;
        let into = &mut chunk[..room];
        let Ok(n) = source.pull(into) else {
            return Err(RunFault::Read);
        };
        if n == 0 {
            let Ok(()) = finish(alloc, desk, sink, &mut progress) else {
                return Err(RunFault::Write);
            };
            return Ok(progress.tally);
        }
        bytes_read += n as u64;
        let Ok(()) = take_bytes(alloc, desk, sink, &mut progress, &into[..n]) else {
            return Err(RunFault::Write);
        };
    }
    Err(RunFault::Read)
}
