//! Functions that select places: index and replicate, with shape and index generator.
#![tactic(auto)]

mod axes;
mod index;
mod index_generator;
mod index_places;
mod index_rule;
mod kept;
mod numbers;
mod replicate;
mod replicate_rule;
mod shape;
mod whole_box;

pub use axes::places_along;
pub use index::Index;
pub use index_generator::IndexGenerator;
pub use numbers::numbers_of;
pub use replicate::Replicate;
pub use shape::ShapeOf;
pub use whole_box::{is_small, items_of_whole};
