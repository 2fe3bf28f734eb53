//! Arrays as printed text, and tables read from files.

use crate::fixtures::assert_written;
use array_text::{print, read_table};
use arrays_core::{Array, is_within_limits, shape_of, size};
use std::alloc::Global;
use std::process::Abort;

/// Ends the test unless the array of these numbers is printed like this.
fn assert_printed(rt: &impl Abort, alloc: Global, axes: &[u32], numbers: &[i64], wanted: &str) {
    assert!(rt; is_within_limits(axes) && size(axes) as usize == numbers.len());
    let numbers = numbers.to_vec(alloc).expect(rt, "numbers");
    let array = Array::from_numbers(&shape_of(alloc, axes), numbers).expect(rt, "an array");
    let text = print(alloc, &array).expect(rt, "a text");
    assert!(rt; text.as_str() == wanted, "{text}");
}

#[test]
fn prints_arrays(rt: HostRuntime) {
    let alloc = rt.alloc();
    assert_printed(&rt, alloc, &[2], &[7, -8], "7 ¯8\n");
    assert_printed(&rt, alloc, &[2, 2], &[5, 11, 11, 25], " 5 11\n11 25\n");
    assert_printed(&rt, alloc, &[2, 1, 2], &[1, 2, 3, 4], "1 2\n\n3 4\n");
    assert_printed(&rt, alloc, &[3, 0], &[], "\n\n\n");
    assert_printed(&rt, alloc, &[0, 3], &[], "");
}

/// Ends the test unless a file is the table of these numbers.
fn assert_table(
    rt: &impl Abort,
    alloc: Global,
    file: &str,
    header: bool,
    axes: &[u32],
    numbers: &[i64],
) {
    let table = read_table(alloc, file.as_bytes(), header).expect(rt, "a table");
    assert!(rt;
        table.shape().as_slice() == axes && table.numbers() == Some(numbers),
        "{file}"
    );
}

#[test]
fn reads_tables(rt: HostRuntime) {
    assert_table(&rt, rt.alloc(), " +7 , ¯2", false, &[1, 2], &[7, -2]);
    assert_table(&rt, rt.alloc(), "", false, &[0, 0], &[]);
    assert_table(&rt, rt.alloc(), "a,b\n", true, &[0, 2], &[]);
}

/// Ends the test unless a file without a header has this first fault, written out.
fn assert_fault(rt: &impl Abort, alloc: Global, file: &str, wanted: &str) {
    let fault = read_table(alloc, file.as_bytes(), false).err();
    assert_written(rt, alloc, &fault, wanted);
}

#[test]
fn finds_the_first_fault_of_a_table(rt: HostRuntime) {
    for (file, wanted) in &[
        ("1,2\n3", "Some(Length { row: 2 })"),
        ("1,x", "Some(Field { row: 1, field: 2 })"),
        ("1,,2", "Some(Field { row: 1, field: 2 })"),
        ("--1", "Some(Field { row: 1, field: 1 })"),
        ("9223372036854775808", "Some(Field { row: 1, field: 1 })"),
    ] {
        assert_fault(&rt, rt.alloc(), file, wanted);
    }
}
