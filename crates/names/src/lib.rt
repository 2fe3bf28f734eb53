//! Names, and the characters that spell them.
#![tactic(auto)]

mod characters;
mod name;

pub use characters::{is_letter, is_name_part};
pub use name::{LONGEST_NAME, Name};
