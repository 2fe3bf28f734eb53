//! Functions that reorder arrays or change their shape. Each item of a result is copied from an argument, or is fill.
#![tactic(auto)]

mod axis_counts;
mod catenate;
mod drop_places;
mod dyadic_transpose;
mod even_steps;
mod index_source;
mod limits;
mod magnitudes;
mod part;
mod places;
mod ravel;
mod reshape;
mod reverse;
mod rotate;
mod take;
mod transpose;

pub use catenate::Catenate;
pub use drop_places::DropPlaces;
pub use dyadic_transpose::DyadicTranspose;
pub use ravel::Ravel;
pub use reshape::Reshape;
pub use reverse::Reverse;
pub use rotate::Rotate;
pub use take::Take;
pub use transpose::Transpose;
