//! Tokens of each kind with their spans, edits and rows that are read from the bytes of a line, and the messages of faults.

use crate::fixtures::{assert_said, assert_written};
use apl_tokens::{RowNumbers, Span, TokenFault, number_edit, number_row, tokens};
use std::alloc::Global;
use std::process::Abort;

/// Ends the test unless a line has these tokens, or this fault, written out.
fn assert_tokens(rt: &impl Abort, alloc: Global, line: &str, wanted: &str) {
    assert_written(rt, alloc, &tokens(alloc, line), wanted);
}

#[test]
fn reads_tokens_or_finds_the_first_fault(rt: HostRuntime) {
    for (line, wanted) in &[
        (" ⍝ none", "Ok([])"),
        (
            "¯5",
            "Ok([Spanned { token: Num(-5), span: Span { start: 0, end: 3 } }])",
        ),
        (
            "\t∣",
            "Ok([Spanned { token: Mark('|'), span: Span { start: 1, end: 4 } }])",
        ),
        (
            "'a'''",
            "Ok([Spanned { token: Text(['a', '\\'']), span: Span { start: 0, end: 5 } }])",
        ),
        ("⍴'ab", "Err(Syntax(Span { start: 3, end: 6 }))"),
        (
            "1 ¯9223372036854775809 '",
            "Err(Limit(Span { start: 2, end: 23 }))",
        ),
    ] {
        assert_tokens(&rt, rt.alloc(), line, wanted);
    }
}

#[test]
fn says_what_is_wrong(rt: HostRuntime) {
    let span = Span { start: 3, end: 6 };
    let syntax = TokenFault::Syntax(span);
    let limit = TokenFault::Limit(span);
    assert_said(&rt, rt.alloc(), &syntax, "no token at bytes 3 to 6");
    assert_said(&rt, rt.alloc(), &limit, "too large a token at bytes 3 to 6");
    assert_said(&rt, rt.alloc(), &TokenFault::NoMemory, "out of memory");
}

/// An edit of an item, and its line.
struct Edit<'a> {
    line: &'a str,
    name: &'a str,
    positions: &'a [i64],
    number: i64,
}

/// Ends the test unless the line of an edit is read from its bytes.
fn assert_edit(rt: &impl Abort, alloc: Global, wanted: &Edit<'_>) {
    let edit = number_edit(alloc, wanted.line).expect(rt, "an edit");
    assert!(rt;
        edit.name.text() == wanted.name
            && edit.positions.as_slice() == wanted.positions
            && edit.number == wanted.number
    );
}

const EDITS: [Edit<'static>; 3] = [
    Edit {
        line: "D[2]←10",
        name: "D",
        positions: &[2],
        number: 10,
    },
    Edit {
        line: "D_2[¯3;1;4]←¯7",
        name: "D_2",
        positions: &[-3, 1, 4],
        number: -7,
    },
    Edit {
        line: "A[1;2;3;4]←0",
        name: "A",
        positions: &[1, 2, 3, 4],
        number: 0,
    },
];

#[test]
fn reads_the_edit_of_an_item(rt: HostRuntime) {
    for edit in &EDITS {
        assert_edit(&rt, rt.alloc(), edit);
    }
}

/// Ends the test unless a row of `D` has these numbers, at most four. A list of several has room for `room` numbers.
fn assert_row(rt: &impl Abort, alloc: Global, line: &str, numbers: &[i64], room: usize) {
    let row = number_row(alloc, line, 4).expect(rt, "a row");
    let RowNumbers::Several(several) = &row.numbers else {
        assert!(rt; false, "{line}");
        return;
    };
    assert!(rt;
        row.name.text() == "D" && several.as_slice() == numbers && several.capacity() == room
    );
}

#[test]
fn reads_a_row_of_numbers(rt: HostRuntime) {
    let alloc = rt.alloc();
    let extremes = ")ROW D 0 ¯9223372036854775808 9223372036854775807";
    assert_row(&rt, alloc, ")ROW D ¯12 3", &[-12, 3], 2);
    assert_row(&rt, alloc, extremes, &[0, i64::MIN, i64::MAX], 4);
    assert_row(&rt, alloc, ")ROW D 1 2 ¯3 007", &[1, 2, -3, 7], 4);
}

#[test]
fn stores_one_number_of_a_row_without_a_list(rt: HostRuntime) {
    let row = number_row(rt.alloc(), ")ROW D 7", 4).expect(&rt, "a row");
    assert!(rt; row.name.text() == "D" && matches!(row.numbers, RowNumbers::One(7)));
}

/// Ends the test unless a line is left to the tokens.
fn assert_left(rt: &impl Abort, alloc: Global, line: &str) {
    let is_left = number_edit(alloc, line).is_none() && number_row(alloc, line, 4).is_none();
    assert!(rt; is_left, "{line}");
}

#[test]
fn leaves_other_lines_to_the_tokens(rt: HostRuntime) {
    for line in &[
        "D[2] ← 10",
        "D[2]←1 2",
        "∆[2]←1",
        "D[1;2;3;4;5]←1",
        "D←2",
        ")ROW D  7",
        ") ROW D 7",
        ")ROW D 'a'",
        ")ROW 7 7",
        ")ROW D",
        ")ROW D ",
        ")ROW D 7 ",
        ")ROW D 7 8 ",
        ")ROW D 7  8",
        ")ROW D 7\t8",
        ")ROW D 7 8 ⍝ 9",
        ")ROW D 7 - 8",
        ")ROW D 7 ¯",
        ")ROW D 7 9223372036854775808",
        ")ROW D ¯9223372036854775809 8",
        ")ROW D 7 8a",
        ")ROW D 1 2 3 4 5",
    ] {
        assert_left(&rt, rt.alloc(), line);
    }
}
