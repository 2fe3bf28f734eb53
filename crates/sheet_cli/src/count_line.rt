//! The text of a count.
ghost use Rattle.std.specs.Prelude.{◌≡◌, ◌≤◌, List, ℕ, ◌++◌, decimal, drop};
ghost use Rattle.array_text.specs.Text.{line_end};

use itoa::write_digits;
use std::marker::Model;

/// The greatest number of digits of a count.
const MOST_DIGITS: usize = 20;

/// A count in decimal digits on its own line. Allocates nothing.
#[derive(Drop)]
pub struct CountLine {
    bytes: [u8; MOST_DIGITS + 1],
    start: usize,
}

impl Model for CountLine {
    ghost Value = { List ℕ };

    ghost view = { λ l. drop l.start l.bytes };

    ghost invariant = { λ l. l.start ≤ 20 };
}

impl CountLine {
    /// Writes the line of a count.
    pub fn new(count: u64) -> CountLine
        ensures { result ≡ decimal count ++ line_end }
    {
        let mut bytes = [b'\n'; MOST_DIGITS + 1];
        let start = write_digits(count, &mut bytes, MOST_DIGITS);
        CountLine { bytes, start }
    }

    /// Returns the bytes of the line.
    pub fn as_bytes(&self) -> &[u8]
        ensures { result.now ≡ self.now }
    {
        &self.bytes[self.start..]
    }
}
