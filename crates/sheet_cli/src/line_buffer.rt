//! The current line, which has not ended yet.
ghost use Rattle.std.specs.Prelude.{◌≡◌, ◌≤◌, List, ℕ, [], ◌++◌, take, IfOk, vec_len, vec_capacity};
ghost use Rattle.sheet_cli.specs.Progress.{most_kept};

use crate::answer::LONGEST_LINE;
use std::alloc::{AllocError, Global};
use std::marker::Model;

/// The number of bytes that decide the answer to a line: a longest line, a CR, one byte too many, and a byte order mark.
pub const KEPT: usize = LONGEST_LINE + 5;

/// The first `KEPT` bytes of the current line.
#[derive(Drop)]
pub struct OpenLine {
    bytes: Vec<u8>,
}

impl Model for OpenLine {
    ghost Value = { List ℕ };

    ghost view = { λ p. p.bytes.items };

    ghost invariant = { λ p. (most_kept ≤ vec_capacity p.bytes) × (vec_len p.bytes ≤ most_kept) };
}

impl OpenLine {
    /// Allocates the memory for all lines.
    pub fn new(alloc: Global) -> Result<OpenLine, AllocError>
        ensures { IfOk result (λ p. p ≡ []) }
    {
        Ok(OpenLine {
            bytes: Vec::with_capacity(alloc, KEPT)?,
        })
    }

    /// Returns the kept bytes.
    pub fn as_slice(&self) -> &[u8]
        ensures { result.now ≡ self.now }
    {
        self.bytes.as_slice()
    }

    /// Appends as many bytes as there is room for.
    pub fn append(&mut self, bytes: &[u8])
        ensures { self.new ≡ take most_kept (self.old ++ bytes.now) }
    {
        let room = (KEPT - self.bytes.len()).min(bytes.len());
        let _ = self.bytes.extend_from_slice(&bytes[..room]);
    }

    /// Clears the bytes for the next line; keeps the memory.
    pub fn clear(&mut self)
        ensures { self.new ≡ [] }
    {
        self.bytes.clear();
    }
}
