//! The whole program in a host that is fully known: its words, one file, and the text of its messages. The proof that such a host exists shows that
//! the program's contract is not empty. No test calls it; the tests run the built program.

ghost use Rattle.std.specs.Prelude.{Some, map, string_bytes};
ghost use Rattle.sheet_cli.specs.Hosts.{Closed, Whole};

use sheet_cli::{Device, Failed, Host, NoWords, NotRead, Teller, program};
use std::alloc::{AllocError, Global};
use std::fmt::Display;

/// Words, and the bytes of the file at every path; without bytes no path has a file.
#[derive(Drop)]
pub struct Shelf<'a> {
    alloc: Global,
    words: &'a [&'a str],
    file: Option<&'a [u8]>,
}

impl<'a> Host for Shelf<'a> {
    type File = Device<&'a [u8]>;

    ghost use Rattle.std.specs.Option.{option_map_or};

    ghost value = { λ s. record {
      words = Some (map (λ word. word.now) s.words.now);
      file = λ _. Some (option_map_or (λ f. Whole f.now) s.file Closed);
    } };

    fn words(&self) -> Result<Vec<String>, NoWords> {
        let mut all = Vec::new(self.alloc);
        for word in self.words {
            let word = String::from_str(self.alloc, word)?;
            if all.push(word).is_err() {
                return Err(NoWords::NoMemory);
            }
        }
        Ok(all)
    }

    fn read(&self, _path: &str) -> Result<Vec<u8>, NotRead> {
        let Some(file) = self.file else {
            return Err(NotRead::CannotRead);
        };
        let mut bytes = Vec::new(self.alloc);
        bytes.extend_from_slice(file)?;
        Ok(bytes)
    }

    fn open(&self, _path: &str) -> Result<Device<&'a [u8]>, Failed> {
        match self.file {
            Some(file) => Ok(Device::new(file)),
            None => Err(Failed),
        }
    }
}

/// Stores the messages.
#[derive(Drop)]
struct Heard {
    text: String,
    failed: bool,
}

impl Teller for Heard {
    ghost told = { λ h. Some (string_bytes h.text) };

    ghost has_failed = { λ h. h.failed };

    fn tell<D: Display + Drop>(&mut self, value: D) -> Result<(), Failed> {
        match write!(self.text, "{value}") {
            Ok(()) => Ok(()),
            Err(AllocError) => {
                self.failed = true;
                Err(Failed)
            }
        }
    }
}

/// Returns whether the program answers these lines so, ends with this status, and gives these messages.
pub fn ends_so(shelf: &Shelf<'_>, lines: &[u8], status: u8, answers: &str, told: &str) -> bool {
    let mut output = Device::new(Vec::new(shelf.alloc));
    let mut heard = Heard {
        text: String::new(shelf.alloc),
        failed: false,
    };
    let ended = program(
        shelf.alloc,
        shelf,
        &mut Device::new(lines),
        &mut output,
        &mut heard,
    );
    ended == status
        && output.into_inner().as_slice() == answers.as_bytes()
        && heard.text.as_str() == told
}
