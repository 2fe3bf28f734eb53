//! The scalar functions on items: on one item or two, kernels for numbers, and right folds of numbers.
#![tactic(auto)]

mod at_once;
mod dispatch;
pub mod folds;
mod identities;
mod items;
pub mod kernels;
mod loops;
mod numbers;
mod power_loops;
mod quotient_loops;

pub use at_once::{NEAR, beyond};
pub use dispatch::{WithFunction, on_number_lists, on_numbers, two_numbers, with_function};
pub use function_names::{Scalar1, Scalar2};
pub use identities::identity;
pub use items::{one, two};
pub use loops::with_left;
pub use numbers::{floor_quotient, residue, truth};
pub use quotient_loops::Reciprocal;
