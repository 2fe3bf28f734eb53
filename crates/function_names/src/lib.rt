//! The names of the scalar functions, and the axis along which a function works. The grammar reads them, and the functions of arrays take them.
#![tactic(auto)]

mod along;
mod scalar;

pub use along::Along;
pub use scalar::{Scalar1, Scalar2};
