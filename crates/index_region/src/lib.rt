//! Shared parts of array functions: boxes, patches, views of arrays, checks, and results computed from their items.
#![tactic(auto)]

mod checks;
mod delta;
mod index_box;
mod index_list;
mod intervals;
mod moved;
mod new_items;
mod patch;
mod primitive;
mod runs;
mod seen;
mod source;
mod tail;

pub use checks::limited;
pub use delta::Delta;
pub use function_names::Along;
pub use index_box::{IndexBox, law_of_covers, law_of_hulls, law_of_walks};
pub use index_list::IndexList;
pub use intervals::Intervals;
pub use moved::{ChangedBox, Moved};
pub use patch::Patch;
pub use primitive::{Primitive, RowPrimitive, apply, apply_rows};
pub use seen::Seen;
pub use source::{Source, item_from};
pub use tail::Tail;
