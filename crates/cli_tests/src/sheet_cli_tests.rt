//! Runs over lines of every length, and over devices that transfer a few bytes a call, or fail.

ghost use Rattle.std.specs.Prelude.{None, Some, false};

use sheet_cli::{Device, Ending, Failed, RunFault, Sink, Source, Tally, run, status};
use sheet_desk::Desk;
use sheet_recalc::Sheet;
use std::alloc::Global;
use std::io::{self, ErrorKind, Write};

/// Gives one byte a call. At the end of its bytes it fails, or ends the input.
#[derive(Drop)]
struct Drip<'a> {
    bytes: &'a [u8],
    breaks: bool,
    failed: bool,
}

impl Source for Drip<'_> {
    ghost remaining = { λ _. None };

    ghost has_failed = { λ d. d.failed };

    fn pull(&mut self, into: &mut [u8]) -> Result<usize, Failed> {
        if self.breaks && self.bytes.is_empty() {
            self.failed = true;
            return Err(Failed);
        }
        let Some((first, rest)) = self.bytes.split_first() else {
            return Ok(0);
        };
        if into.is_empty() {
            return Ok(0);
        }
        into[0] = *first;
        self.bytes = rest;
        Ok(1)
    }

    fn failed(&self) -> bool {
        self.failed
    }
}

/// Takes one byte a call. Fails when no byte is left to take.
#[derive(Drop)]
struct Trickle {
    bytes: Vec<u8>,
    left: usize,
    failed: bool,
    flushed: bool,
}

impl Sink for Trickle {
    ghost written = { λ t. Some t.bytes.items };

    ghost has_failed = { λ t. t.failed };

    ghost is_flushed = { λ t. t.flushed };

    fn put(&mut self, bytes: &[u8]) -> Result<usize, Failed> {
        self.flushed = false;
        let Some(first) = bytes.first() else {
            return Ok(0);
        };
        if self.left == 0 || self.bytes.push(*first).is_err() {
            self.failed = true;
            return Err(Failed);
        }
        self.left -= 1;
        Ok(1)
    }

    fn flush(&mut self) -> Result<(), Failed> {
        self.flushed = true;
        Ok(())
    }

    fn failed(&self) -> bool {
        self.failed
    }
}

/// Takes all bytes, and fails at a flush.
#[derive(Drop)]
struct Stuck;

impl Write for Stuck {
    fn write(&mut self, bytes: &[u8]) -> io::Result<usize> {
        Ok(bytes.len())
    }

    fn flush(&mut self) -> io::Result<()> {
        Err(io::Error::from(ErrorKind::Other))
    }
}

/// Takes bytes up to a limit, and then none, without an error.
#[derive(Drop)]
struct Filling {
    bytes: Vec<u8>,
    left: usize,
}

impl Write for Filling {
    fn write(&mut self, bytes: &[u8]) -> io::Result<usize> {
        let taken = bytes.len().min(self.left);
        self.left -= taken;
        match self.bytes.extend_from_slice(&bytes[..taken]) {
            Ok(()) => Ok(taken),
            Err(_) => Err(io::Error::from(ErrorKind::OutOfMemory)),
        }
    }

    fn flush(&mut self) -> io::Result<()> {
        Ok(())
    }
}

/// Makes a sink that takes this many bytes.
fn sink_of(alloc: Global, left: usize) -> Trickle {
    Trickle {
        bytes: Vec::new(alloc),
        left,
        failed: false,
        flushed: false,
    }
}

/// Runs with a new sheet, and returns the end of the run and the number of names of the sheet.
fn run_anew<R: Source, W: Sink>(
    alloc: Global,
    source: &mut R,
    sink: &mut W,
) -> (Result<Tally, RunFault>, usize) {
    let mut desk = Desk::new(Sheet::new(alloc));
    let end = run(alloc, &mut desk, source, sink);
    (end, desk.sheet().names().len())
}

/// Gives a line of every length from 0 to 4,097 bytes. Lines of 1 to 4,096 bytes are answered by 5; the last one is too long.
#[derive(Drop)]
struct Lengths {
    length: usize,
    at: usize,
}

/// The bytes of the sign that begins a comment, and of a character of four bytes.
const COMMENT: [u8; 3] = [0xE2, 0x8D, 0x9D];

const CLEF: [u8; 4] = [0xF0, 0x9D, 0x84, 0x9E];

impl Lengths {
    /// Returns the next byte: a 5, a comment of characters of four bytes where they fit, blanks, and the end of the line.
    fn next_byte(&mut self) -> u8 {
        let (length, at) = (self.length, self.at);
        if at >= length {
            self.at = 0;
            self.length = length.saturating_add(1);
            return b'\n';
        }
        self.at = at + 1;
        if at == 0 {
            b'5'
        } else if length >= 4 && at < 4 {
            COMMENT[at - 1]
        } else if at < length - length % 4 {
            CLEF[at % 4]
        } else {
            b' '
        }
    }
}

impl Source for Lengths {
    ghost remaining = { λ _. None };

    ghost has_failed = { λ _. false };

    fn pull(&mut self, into: &mut [u8]) -> Result<usize, Failed> {
        let room = into.len().min(1000);
        for place in 0..room {
            if self.length > 4097 {
                return Ok(place);
            }
            into[place] = self.next_byte();
        }
        Ok(room)
    }

    fn failed(&self) -> bool {
        false
    }
}

#[test]
fn lines_of_every_length(rt: HostRuntime) {
    let mut wanted = String::new(rt.alloc());
    for _ in 1..=4096 {
        wanted.push_str("5\n").expect(&rt, "room");
    }
    wanted.push_str("LINE TOO LONG\n").expect(&rt, "room");
    let mut source = Lengths { length: 0, at: 0 };
    let mut sink = Device::new(Vec::new(rt.alloc()));
    let (end, _) = run_anew(rt.alloc(), &mut source, &mut sink);
    let tally = Tally {
        lines: 4098,
        refused_for_memory: 0,
    };
    assert!(rt; end == Ok(tally) && sink.into_inner().as_slice() == wanted.as_bytes());
}

/// Returns whether a run over these bytes gives these answers.
fn is_answered(alloc: Global, input: &[u8], wanted: &str) -> bool {
    let mut sink = Device::new(Vec::new(alloc));
    let (end, _) = run_anew(alloc, &mut Device::new(input), &mut sink);
    end.is_ok() && sink.into_inner().as_slice() == wanted.as_bytes()
}

#[test]
fn lines_and_their_ends(rt: HostRuntime) {
    for (input, wanted) in [
        (&b""[..], ""),
        (&b"\n\r\n"[..], ""),
        (&b"\xEF\xBB\xBF1+1\r\n2"[..], "2\n2\n"),
        (&b"\xEF\xBB"[..], "NOT TEXT\n"),
        (&b"1\n\xFF\n2\n"[..], "1\nNOT TEXT\n2\n"),
        (&[b' '; 4096][..], ""),
        (&[b'\xFF'; 4096][..], "NOT TEXT\n"),
        (&[b'\xFF'; 9000][..], "LINE TOO LONG\n"),
    ] {
        assert!(rt; is_answered(rt.alloc(), input, wanted));
    }
}

#[test]
fn a_byte_at_a_time(rt: HostRuntime) {
    let mut source = Drip {
        bytes: b"\xEF\xBB\xBFA\xE2\x86\x901 2\r\nA\nA+A",
        breaks: false,
        failed: false,
    };
    let mut sink = sink_of(rt.alloc(), 100);
    let (end, _) = run_anew(rt.alloc(), &mut source, &mut sink);
    let tally = Tally {
        lines: 3,
        refused_for_memory: 0,
    };
    assert!(rt; end == Ok(tally) && sink.bytes.as_slice() == b"1 2\n2 4\n".as_slice());
    assert!(rt; sink.flushed && !sink.failed() && !source.failed());
}

#[test]
fn an_input_that_breaks_off(rt: HostRuntime) {
    let mut source = Drip {
        bytes: b"1+1\nA\xE2\x86\x904\n2",
        breaks: true,
        failed: false,
    };
    let mut sink = sink_of(rt.alloc(), 100);
    let (end, names) = run_anew(rt.alloc(), &mut source, &mut sink);
    assert!(rt; end == Err(RunFault::Read) && names == 1);
    assert!(rt; sink.bytes.as_slice() == b"2\n".as_slice());
}

#[test]
fn a_sink_of_three_bytes(rt: HostRuntime) {
    let mut source = Device::new(b"10\n20\nA\xE2\x86\x904\n".as_slice());
    let mut sink = sink_of(rt.alloc(), 3);
    let (end, names) = run_anew(rt.alloc(), &mut source, &mut sink);
    assert!(rt; end == Err(RunFault::Write) && names == 0);
    assert!(rt; sink.bytes.as_slice() == b"10\n".as_slice());
}

/// Lines with two answers.
const TWO_SHOWS: &str = ")DATA D←1 2 3\nT←D×2\nU←T+D\nU\nD[2]←10\nU\n";

const ANSWERS: &[u8] = b"3 6 9\n3 30 9\n";

/// Returns the answers to the lines that end within a part of `TWO_SHOWS`.
fn answers_to(input: &[u8]) -> &'static [u8] {
    let mut ends: usize = 0;
    for byte in input {
        if *byte == b'\n' {
            ends = ends.saturating_add(1);
        }
    }
    match ends {
        0..=3 => b"",
        4 | 5 => b"3 6 9\n",
        _ => ANSWERS,
    }
}

#[test]
fn an_input_that_breaks_off_at_each_byte(rt: HostRuntime) {
    let input = TWO_SHOWS.as_bytes();
    for length in 0..=input.len() {
        let mut source = Drip {
            bytes: &input[..length],
            breaks: true,
            failed: false,
        };
        let mut sink = sink_of(rt.alloc(), 100);
        let (end, _) = run_anew(rt.alloc(), &mut source, &mut sink);
        assert!(rt; end == Err(RunFault::Read) && source.failed() && !sink.failed());
        assert!(rt; sink.bytes.as_slice() == answers_to(&input[..length]));
    }
}

#[test]
fn a_sink_of_each_length(rt: HostRuntime) {
    for length in 0..=ANSWERS.len() {
        let mut sink = sink_of(rt.alloc(), length);
        let mut source = Device::new(TWO_SHOWS.as_bytes());
        let (end, _) = run_anew(rt.alloc(), &mut source, &mut sink);
        let is_whole = length == ANSWERS.len();
        assert!(rt; end.is_ok() == is_whole && (is_whole || end == Err(RunFault::Write)));
        assert!(rt; sink.failed() != is_whole && sink.bytes.as_slice() == &ANSWERS[..length]);
    }
}

#[test]
fn a_writer_that_takes_no_more(rt: HostRuntime) {
    for length in 0..ANSWERS.len() {
        let mut sink = Device::new(Filling {
            bytes: Vec::new(rt.alloc()),
            left: length,
        });
        let mut source = Device::new(TWO_SHOWS.as_bytes());
        let (end, _) = run_anew(rt.alloc(), &mut source, &mut sink);
        assert!(rt; end == Err(RunFault::Write) && sink.failed());
        assert!(rt; sink.into_inner().bytes.as_slice() == &ANSWERS[..length]);
    }
}

#[test]
fn a_flush_that_fails(rt: HostRuntime) {
    let mut source = Device::new(b"1\nA\xE2\x86\x904\n".as_slice());
    let mut sink = Device::new(Stuck);
    let (end, names) = run_anew(rt.alloc(), &mut source, &mut sink);
    assert!(rt; end == Err(RunFault::Write) && sink.failed() && names == 1);
}

#[test]
fn an_ending_has_its_status(rt: HostRuntime) {
    assert!(rt; status(&Ending::Done) == 0 && status(&Ending::BadName) == 2);
    assert!(rt; status(&Ending::CannotRead) == 1);
}
