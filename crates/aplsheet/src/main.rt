//! The program: reads lines from a file or from standard input, and writes their answers to standard output.
#![tactic(auto)]

ghost use Rattle.std.specs.Prelude.{None};

use sheet_cli::{Device, Failed, Host, NoWords, NotRead, Teller, program};
use std::alloc::{AllocError, Global};
use std::fmt::Display;
use std::fs::File;
use std::io;
use std::io::Read;
use std::process::ExitCode;

/// The greatest freed size to which glibc adapts its mmap threshold: 32 MiB less two pages for its header.
const LARGEST_PIECE: usize = 33_546_240;

/// The host machine. Its arguments and files are unknown to the contracts.
#[derive(Drop)]
struct Machine {
    rt: HostRuntime,
}

impl Host for Machine {
    type File = Device<File>;

    ghost value = { λ _. record { words = None; file = λ _. None } };

    fn words(&self) -> Result<Vec<String>, NoWords> {
        Ok(std::env::args(&self.rt)?.collect(self.rt.alloc())?)
    }

    // The buffer has the file's size and one byte more: so reading to the end does not grow it.
    fn read(&self, path: &str) -> Result<Vec<u8>, NotRead> {
        let mut file = File::open(&self.rt, path)?;
        let size = usize::try_from(file.metadata()?.len()).unwrap_or(usize::MAX);
        let mut bytes = Vec::with_capacity(self.rt.alloc(), size.saturating_add(1))?;
        file.read_to_end(&mut bytes)?;
        Ok(bytes)
    }

    fn open(&self, path: &str) -> Result<Device<File>, Failed> {
        File::open(&self.rt, path)
            .map(Device::new)
            .map_err(|_| Failed)
    }
}

/// Standard error.
#[derive(Drop)]
struct StandardError {
    rt: HostRuntime,
    failed: bool,
}

impl Teller for StandardError {
    ghost told = { λ _. None };

    ghost has_failed = { λ e. e.failed };

    fn tell<D: Display + Drop>(&mut self, value: D) -> Result<(), Failed> {
        if self.rt.eprint(value).is_err() {
            self.failed = true;
            return Err(Failed);
        }
        Ok(())
    }
}

/// Allocates a large piece and frees it untouched. This raises glibc's mmap threshold: glibc then keeps the freed memory of arrays, up to twice
/// that size. Otherwise it returns large pieces to the system, which clears each page for the next array. That takes longer than a selection by a
/// mask. If the piece is refused, nothing changes.
fn keep_what_arrays_give_back(alloc: Global) {
    let _piece: Result<Vec<u8>, AllocError> = Vec::with_capacity(alloc, LARGEST_PIECE);
}

/// Runs the program with the arguments, the files and the streams of the machine, and returns its status.
fn main(rt: HostRuntime) -> ExitCode {
    keep_what_arrays_give_back(rt.alloc());
    let mut input = Device::new(rt.reader());
    let mut output = Device::new(io::writer(&rt));
    let mut errors = StandardError { rt, failed: false };
    let machine = Machine { rt };
    let status = program(rt.alloc(), &machine, &mut input, &mut output, &mut errors);
    ExitCode::from(status)
}
