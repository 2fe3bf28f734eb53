//! Tokens.

ghost use Rattle.std.specs.Prelude.{Some};
ghost use Rattle.apl_tokens.specs.Spans.{span_text};

use names::Name;
use std::fmt;
use std::fmt::{Display, Formatter, Write};

/// The bytes that a token takes in its line: from `start` up to `end`, without it.
#[derive(Clone, Copy, Debug, PartialEq, Eq)]
pub struct Span {
    /// The first byte.
    pub start: usize,
    /// The byte after the last.
    pub end: usize,
}

impl Display for Span {
    ghost output = { λ s. Some (span_text s) };

    fn fmt<W: Write>(&self, f: &mut Formatter<W>) -> fmt::Result {
        write!(f, "{} to {}", self.start, self.end)
    }
}

/// A token, which is a lexical unit of ISO 8485.
#[derive(Debug, Drop)]
pub enum Token {
    /// A number literal: digits, after a high minus if it is negative.
    Num(i64),
    /// A text literal: the characters between its quotes, a doubled quote once.
    Text(Vec<char>),
    /// A name: an identifier of ISO 8485.
    Word(Name),
    /// A sign of a function or of the line, in its first spelling.
    Mark(char),
}

/// A token with its span.
#[derive(Debug, Drop)]
pub struct Spanned {
    /// The token.
    pub token: Token,
    /// The bytes that the token takes.
    pub span: Span,
}
