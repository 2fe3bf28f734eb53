//! The words of the command line.
#![tactic(auto)]

mod command;
mod reading;

pub use reading::{Words, WordsFault, not_text, read_words};
