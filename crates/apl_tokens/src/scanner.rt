//! The scanner, which reads the characters of a line from left to right, once.

ghost use Rattle.std.specs.Prelude.{◌+◌, ◌≤◌, ◌<◌, ◌^◌, ℕ, List, [], ◌∷◌, ◌++◌, Ok, length, IfOk};
ghost use Rattle.std.specs.Char.{len_utf8};
ghost use Rattle.std.specs.Str.{chars};
ghost use Rattle.apl_tokens.specs.Lexemes.{lexeme};
ghost use Rattle.apl_tokens.specs.Scans.{with_front, spanned};
ghost use Rattle.apl_tokens.specs.Scanner.{begun, ended, then_begun, turn, scan, Between, Quoted, Goes};
ghost use Rattle.apl_tokens.specs.Scanning.{scan_of, all_spanned, prepended, IsReading, StandsAt, Turns, Finds, AreTokensIn, AreTokensOf};

use crate::characters::{is_blank, joins_number, sign_of};
use crate::fault::TokenFault;
use crate::numbers::number_of_digits;
use crate::token::{Span, Spanned, Token};
use names::{Name, is_letter, is_name_part};
use std::alloc::Global;

/// The initial capacity of a list of tokens, which is enough for most lines.
const FEW_TOKENS: usize = 8;

/// The state of the scanner, with the byte at which the current token begins. A number and a name stay in the text until they end.
#[derive(Drop)]
enum Scan {
    /// No token is open.
    Between,
    /// A comment.
    Comment,
    /// A high minus, with its span.
    Minus(Span),
    /// A number: its start, true if it has a high minus, and the start of its digits.
    Digits(usize, bool, usize),
    /// A name: its start.
    Letters(usize),
    /// A text literal: its start, and its characters so far.
    Quoted(usize, Vec<char>),
    /// A text literal after a quote, which ends it or is doubled: its start, and its characters so far.
    Quote(usize, Vec<char>),
}

/// Appends a token.
#[inline(always)]
fn put(out: &mut Vec<Spanned>, token: Token, span: Span) -> Result<(), TokenFault>
    ensures { Finds result out.new.items (Ok (all_spanned out.old.items ++ spanned (lexeme token) span.start span.end ∷ [])) }
{
    out.push(Spanned { token, span })?;
    Ok(())
}

/// Begins a token with the character at byte `at`.
#[inline(always)]
fn begun(
    alloc: Global,
    text: &[u8],
    at: usize,
    c: char,
    out: &mut Vec<Spanned>,
) -> Result<Scan, TokenFault>
    requires short { at + len_utf8 c < 2 ^ 64 }
    requires stands { StandsAt text.now at c }
    ensures turns { Turns text.now (at + len_utf8 c) result out.new.items (prepended (all_spanned out.old.items) (begun at c)) }
    ensures reading { IfOk result (IsReading text.now (at + len_utf8 c)) }
{
    let end = at + c.len_utf8();
    if is_blank(c) {
        return Ok(Scan::Between);
    }
    if let Some(sign) = sign_of(c) {
        put(out, Token::Mark(sign), Span { start: at, end })?;
        return Ok(Scan::Between);
    }
    if c == '\'' {
        Ok(Scan::Quoted(at, Vec::new(alloc)))
    } else if c.is_ascii_digit() {
        Ok(Scan::Digits(at, false, at))
    } else if is_letter(c) {
        Ok(Scan::Letters(at))
    } else if c == '¯' {
        Ok(Scan::Minus(Span { start: at, end }))
    } else if c == '⍝' {
        Ok(Scan::Comment)
    } else {
        Err(TokenFault::Syntax(Span { start: at, end }))
    }
}

/// Ends the open token before byte `at`.
#[inline(always)]
fn ended(text: &[u8], at: usize, scan: Scan, out: &mut Vec<Spanned>) -> Result<(), TokenFault>
    requires within { at ≤ length text.now }
    requires reading { IsReading text.now at scan }
    ensures { Finds result out.new.items (with_front (all_spanned out.old.items) (ended at (scan_of text.now at scan))) }
{
    match scan {
        Scan::Between => Ok(()),
        Scan::Comment => Ok(()),
        Scan::Minus(span) => Err(TokenFault::Syntax(span)),
        Scan::Digits(start, is_negative, first) => {
            let span = Span { start, end: at };
            match number_of_digits(is_negative, &text[first..at]) {
                Some(n) => put(out, Token::Num(n), span),
                None => Err(TokenFault::Limit(span)),
            }
        }
        Scan::Letters(start) => {
            let span = Span { start, end: at };
            match Name::of_letters(&text[start..at]) {
                Some(name) => put(out, Token::Word(name), span),
                None => Err(TokenFault::Limit(span)),
            }
        }
        Scan::Quoted(start, _) => Err(TokenFault::Syntax(Span { start, end: at })),
        Scan::Quote(start, chars) => put(out, Token::Text(chars), Span { start, end: at }),
    }
}

/// Ends the open token, and begins the next with the character at byte `at`.
#[inline(always)]
fn then_begun(
    alloc: Global,
    text: &[u8],
    at: usize,
    c: char,
    scan: Scan,
    out: &mut Vec<Spanned>,
) -> Result<Scan, TokenFault>
    requires short { at + len_utf8 c < 2 ^ 64 }
    requires within { at ≤ length text.now }
    requires stands { StandsAt text.now at c }
    requires reading { IsReading text.now at scan }
    ensures turns { Turns text.now (at + len_utf8 c) result out.new.items (prepended (all_spanned out.old.items) (then_begun (ended at (scan_of text.now at scan)) (begun at c))) }
    ensures reading { IfOk result (IsReading text.now (at + len_utf8 c)) }
{
    ended(text, at, scan, out)?;
    begun(alloc, text, at, c, out)
}

/// Appends a character to a text literal.
fn quoted(start: usize, mut chars: Vec<char>, c: char) -> Result<Scan, TokenFault>
    ensures turns { (text : List ℕ) → (at : ℕ) → Turns text at result [] (Goes [] (Quoted start (chars.items ++ c ∷ []))) }
    ensures reading { IfOk result (λ s. (text : List ℕ) → (at : ℕ) → IsReading text at s) }
{
    chars.push(c)?;
    Ok(Scan::Quoted(start, chars))
}

/// Reads the character at byte `at`.
#[inline(always)]
fn turn(
    alloc: Global,
    text: &[u8],
    at: usize,
    c: char,
    scan: Scan,
    out: &mut Vec<Spanned>,
) -> Result<Scan, TokenFault>
    requires short { at + len_utf8 c < 2 ^ 64 }
    requires within { at ≤ length text.now }
    requires stands { StandsAt text.now at c }
    requires reading { IsReading text.now at scan }
    ensures turns { Turns text.now (at + len_utf8 c) result out.new.items (prepended (all_spanned out.old.items) (turn at c (scan_of text.now at scan))) }
    ensures reading { IfOk result (IsReading text.now (at + len_utf8 c)) }
{
    match scan {
        Scan::Between => begun(alloc, text, at, c, out),
        Scan::Comment => Ok(Scan::Comment),
        Scan::Minus(minus) if c.is_ascii_digit() => Ok(Scan::Digits(minus.start, true, at)),
        Scan::Minus(minus) => Err(TokenFault::Syntax(minus)),
        Scan::Digits(start, is_negative, first) if c.is_ascii_digit() => {
            Ok(Scan::Digits(start, is_negative, first))
        }
        Scan::Digits(start, _, _) if joins_number(c) => {
            Err(TokenFault::Syntax(Span { start, end: at }))
        }
        Scan::Letters(start) if is_name_part(c) => Ok(Scan::Letters(start)),
        Scan::Quoted(start, chars) if c == '\'' => Ok(Scan::Quote(start, chars)),
        Scan::Quoted(start, chars) => quoted(start, chars, c),
        Scan::Quote(start, chars) if c == '\'' => quoted(start, chars, c),
        ended => then_begun(alloc, text, at, c, ended, out),
    }
}

/// Replaces the tokens in `out` by the tokens of the text.
fn scanned(alloc: Global, text: &str, out: &mut Vec<Spanned>) -> Result<(), TokenFault>
    requires { length text.now < 2 ^ 64 }
    ensures { Finds result out.new.items (scan (chars text.now) 0 Between) }
{
    let bytes = text.as_bytes();
    out.clear();
    let mut reading = Scan::Between;
    let mut at: usize = 0;
    for c in text.chars() {
        reading = turn(alloc, bytes, at, c, reading, out)?;
        at += c.len_utf8();
    }
    ended(bytes, at, reading, out)
}

/// Returns the tokens of a line, which are the lexical units of ISO 8485. Blanks between tokens and a comment, which begins with `⍝`, are not
/// tokens. A sign is in its first spelling. A text literal is the characters between its quotes, a doubled quote once.
///
/// Returns the first fault from the left if there is one. `Syntax`: a character begins no token; a high minus has no digit after it; a text
/// literal is not closed, from its quote to the end; or a letter, `_` or a high minus follows a number directly. `Limit`: a number is out of
/// range, or a name has more than 63 bytes.
pub fn tokens(alloc: Global, text: &str) -> Result<Vec<Spanned>, TokenFault>
    ensures { AreTokensOf (chars text.now) result }
{
    let mut found = Vec::with_capacity(alloc, FEW_TOKENS)?;
    match tokens_into(alloc, text, &mut found) {
        Ok(()) => Ok(found),
        Err(fault) => Err(fault),
    }
}

/// Replaces the tokens in `found` by the tokens of the line, and reuses their memory. After a fault the contents of `found` are unspecified.
#[tactic(auto, using(crate::proofs::Sound::are_tokens))]
pub fn tokens_into(alloc: Global, text: &str, found: &mut Vec<Spanned>) -> Result<(), TokenFault>
    ensures { AreTokensIn (chars text.now) result found.new }
{
    // The length of a text is below 2^64, so no byte offset in it overflows.
    let _len = text.len();
    scanned(alloc, text, found)
}
