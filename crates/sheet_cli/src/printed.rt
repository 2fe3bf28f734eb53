//! The text that a line prints.

ghost use Rattle.std.specs.Prelude.{◌≡◌};
ghost use Rattle.sheet_cli.specs.Printed.{printed_bytes};

use crate::count_line::CountLine;

/// The text that a line prints. Only `Made` is allocated.
#[derive(Drop)]
pub(crate) enum Printed {
    /// A constant text.
    Fixed(&'static str),
    /// A count.
    Count(CountLine),
    /// An allocated text.
    Made(String),
}

impl Printed {
    /// Returns the bytes of the text.
    pub(crate) fn as_bytes(&self) -> &[u8]
        ensures { result.now ≡ printed_bytes self.now }
    {
        match self {
            Printed::Fixed(text) => text.as_bytes(),
            Printed::Count(line) => line.as_bytes(),
            Printed::Made(text) => text.as_bytes(),
        }
    }
}
