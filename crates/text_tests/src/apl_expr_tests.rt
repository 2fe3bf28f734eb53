//! Trees of each kind, the greatest number of tokens, and the messages of faults.

use crate::fixtures::{assert_said, assert_written};
use apl_expr::{LineFault, ParseFault, parse};
use apl_tokens::tokens;
use std::alloc::Global;
use std::process::Abort;

/// Ends the test unless a text has this tree, written out.
fn assert_tree(rt: &impl Abort, alloc: Global, text: &str, wanted: &str) {
    let found = tokens(alloc, text).expect(rt, "tokens");
    assert_written(rt, alloc, &parse(alloc, &found), wanted);
}

#[test]
fn reads_trees(rt: HostRuntime) {
    for (text, wanted) in &[
        ("5", "Ok(Const(Num(5)))"),
        ("5 6", "Ok(Const(Nums([5, 6])))"),
        ("'a'", "Ok(Const(Char('a')))"),
        ("'ab'", "Ok(Const(Text(['a', 'b'])))"),
        ("''", "Ok(Const(Text([])))"),
        (
            "5-3×-1 2",
            "Ok(Dyad(Scalar(Minus), Sides { left: Const(Num(5)), right: Dyad(Scalar(Times), Sides { left: Const(Num(3)), right: Monad(Scalar(Negative), Const(Nums([1, 2]))) }) }))",
        ),
        (
            "(5-3)⌽[¯1]'a'",
            "Ok(Dyad(Rotate(Axis(-1)), Sides { left: Dyad(Scalar(Minus), Sides { left: Const(Num(5)), right: Const(Num(3)) }), right: Const(Char('a')) }))",
        ),
        (
            "(5)[1;;⍳3][2]",
            "Ok(Index(Index(Const(Num(5)), [Some(Const(Num(1))), None, Some(Monad(Iota, Const(Num(3))))]), [Some(Const(Num(2)))]))",
        ),
        (
            "+/[2]-⍀3",
            "Ok(Reduce(Plus, Axis(2), Scan(Minus, First, Const(Num(3)))))",
        ),
        (
            "1+.×2∘.=1/3",
            "Ok(Inner(Plus, Times, Sides { left: Const(Num(1)), right: Outer(Equal, Sides { left: Const(Num(2)), right: Dyad(Replicate(Last), Sides { left: Const(Num(1)), right: Const(Num(3)) }) }) }))",
        ),
    ] {
        assert_tree(&rt, rt.alloc(), text, wanted);
    }
}

/// Returns whether as many numbers have a tree, or too many tokens for one.
fn is_parsed(rt: &impl Abort, alloc: Global, count: usize) -> Option<bool> {
    let text = "7 ".repeat(alloc, count).expect(rt, "a text");
    let found = tokens(alloc, text.as_str()).expect(rt, "tokens");
    assert!(rt; found.len() == count);
    match parse(alloc, &found) {
        Ok(_) => Some(true),
        Err(ParseFault::Limit) => Some(false),
        Err(_) => None,
    }
}

#[test]
fn an_expression_has_at_most_4096_tokens(rt: HostRuntime) {
    assert!(rt; is_parsed(&rt, rt.alloc(), 4096) == Some(true));
    assert!(rt; is_parsed(&rt, rt.alloc(), 4097) == Some(false));
}

#[test]
fn says_what_is_wrong(rt: HostRuntime) {
    let alloc = rt.alloc();
    assert_said(&rt, alloc, &ParseFault::Syntax, "not an expression");
    assert_said(&rt, alloc, &ParseFault::Limit, "too large an expression");
    assert_said(&rt, alloc, &ParseFault::NoMemory, "out of memory");
    assert_said(&rt, alloc, &LineFault::Syntax, "not a line of the language");
    assert_said(&rt, alloc, &LineFault::Limit, "too large a line");
    assert_said(&rt, alloc, &LineFault::NoMemory, "out of memory");
}
