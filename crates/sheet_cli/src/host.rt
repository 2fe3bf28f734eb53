//! The environment of the program: its arguments, its files, and the place for error messages.

ghost use Rattle.std.specs.Prelude.{◌≡◌, ◌||◌, ℕ, Bool, List, Option, IfOk, IfSome, IsErrOf, OnErr, OnOk, is_err, map, string_bytes};
ghost use Rattle.std.specs.Io.KnownBytes.{Appends};
ghost use Rattle.std.specs.IoError.{error_kind};
ghost use Rattle.sheet_cli.specs.Hosts.{HostValue, HasWords, HasNoText, ReadsFile, FailsToRead, Opens, FailsToOpen};

use crate::device::{Failed, Source};
use std::alloc::AllocError;
use std::fmt::Display;
use std::io::{self, ErrorKind};

/// The reason why the arguments cannot be read.
#[derive(Clone, Copy, Debug, PartialEq, Eq)]
pub enum NoWords {
    /// The allocator refused memory.
    NoMemory,
    /// An argument is not UTF-8 text.
    NotText,
}

/// The reason why a file cannot be read.
#[derive(Clone, Copy, Debug, PartialEq, Eq)]
pub enum NotRead {
    /// The allocator refused memory.
    NoMemory,
    /// The file cannot be opened, or cannot be read to its end.
    CannotRead,
}

impl From<AllocError> for NoWords {
    ghost use Rattle.sheet_cli.specs.declared.host.NoWords.TheVariants.{NoMemory};

    ghost from_gives = { λ _ why. why ≡ NoMemory };

    fn from(_error: AllocError) -> NoWords {
        NoWords::NoMemory
    }
}

impl From<io::Error> for NoWords {
    ghost use Rattle.sheet_cli.specs.Hosts.{no_words};

    ghost from_gives = { λ error why. why ≡ no_words (error_kind error) };

    fn from(error: io::Error) -> NoWords {
        match error.kind() {
            ErrorKind::OutOfMemory => NoWords::NoMemory,
            _ => NoWords::NotText,
        }
    }
}

impl From<AllocError> for NotRead {
    ghost use Rattle.sheet_cli.specs.declared.host.NotRead.TheVariants.{NoMemory};

    ghost from_gives = { λ _ why. why ≡ NoMemory };

    fn from(_error: AllocError) -> NotRead {
        NotRead::NoMemory
    }
}

impl From<io::Error> for NotRead {
    ghost use Rattle.sheet_cli.specs.Hosts.{not_read};

    ghost from_gives = { λ error why. why ≡ not_read (error_kind error) };

    fn from(error: io::Error) -> NotRead {
        match error.kind() {
            ErrorKind::OutOfMemory => NotRead::NoMemory,
            _ => NotRead::CannotRead,
        }
    }
}

/// The environment of the program.
pub trait Host {
    /// An open file.
    type File: Source + Drop;

    // The arguments and the files, where they are known.
    ghost value: { Self → HostValue };

    /// Returns the program's arguments, its own name first.
    fn words(&self) -> Result<Vec<String>, NoWords>
        ensures ok { IfOk result (λ all. HasWords (value self.now) (map string_bytes all.items)) }
        ensures not_text { IsErrOf result NoWords.NotText → HasNoText (value self.now) };

    /// Reads a whole file.
    fn read(&self, path: &str) -> Result<Vec<u8>, NotRead>
        ensures ok { IfOk result (λ bytes. ReadsFile (value self.now) path.now bytes.items) }
        ensures not_read { IsErrOf result NotRead.CannotRead → FailsToRead (value self.now) path.now };

    /// Opens a file.
    fn open(&self, path: &str) -> Result<Self::File, Failed>
        ensures ok { IfOk result (λ file. Opens (value self.now) path.now (Self.File.remaining file)) }
        ensures err { OnErr result (FailsToOpen (value self.now) path.now) };
}

/// Accepts the text that reports the result of the program.
pub trait Teller {
    // The bytes accepted so far, if they are known.
    ghost told: { Self → Option (List ℕ) };

    // A call has returned `Failed`.
    ghost has_failed: { Self → Bool };

    /// Writes the text of a value. A failed call may have written a part of it.
    fn tell<D: Display + Drop>(&mut self, value: D) -> Result<(), Failed>
        ensures ok { OnOk result (IfSome (D.output value) (Appends (told self.old) (told self.new))) }
        ensures fault { has_failed self.new ≡ (has_failed self.old || is_err result) };
}
