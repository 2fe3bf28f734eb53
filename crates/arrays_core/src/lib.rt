//! Arrays of numbers or characters: a type, a shape, and an item at each index list.
#![tactic(auto)]

mod array;
mod builder;
mod fault;
mod item;
mod item_function;
mod item_list;
mod ravel;
mod room;
mod shape;

pub use array::Array;
pub use builder::ArrayBuilder;
pub use fault::{ApplyFault, Fault, outcome};
pub use item::{Item, ItemType, Kind};
pub use item_function::{ItemFunction, RowFunction, collect, collect_rows};
pub use room::{Room, copied, is_same_room, put_behind, repeated, room_between, room_of, roomy};
pub use shape::{
    LONGEST_AXIS, MOST_AXES, MOST_PLACES, Shape, advance, append_axes, index_in_row,
    index_of_position, is_index_of, is_within_limits, law_of_row_major_order, places_before,
    position, shape_of, size, with_axis, without_axis,
};
