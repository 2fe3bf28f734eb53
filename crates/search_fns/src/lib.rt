//! Functions that look up items, and functions that split numbers into digits and join them.
#![tactic(auto)]

mod bit_rows;
mod decode;
mod digits;
mod encode;
mod encoded_rows;
mod index_of;
mod lookup;
mod member;
mod more_digits;
mod number_at;
mod radix;

pub use decode::Decode;
pub use encode::Encode;
pub use index_of::IndexOf;
pub use member::Member;
