//! Values as text. Each call ends the test if the text is another one.

use std::alloc::Global;
use std::fmt::{Debug, Display};
use std::process::Abort;

/// Ends the test unless a value is written out like this.
pub(crate) fn assert_written<T: Debug>(rt: &impl Abort, alloc: Global, value: &T, wanted: &str) {
    let text = format!(in alloc; "{value:?}").expect(rt, "a text");
    assert!(rt; text.as_str() == wanted, "{text}");
}

/// Ends the test unless a value has this message.
pub(crate) fn assert_said<T: Display>(rt: &impl Abort, alloc: Global, value: &T, wanted: &str) {
    let text = format!(in alloc; "{value}").expect(rt, "a text");
    assert!(rt; text.as_str() == wanted, "{text}");
}
