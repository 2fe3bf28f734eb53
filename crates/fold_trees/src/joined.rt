//! The parts that were joined for another number at a place.

ghost use Rattle.std.specs.Prelude.{◌≡◌, ◌↔◌, IsTrue};

use crate::extremes::{Greatest, Least};
use crate::product::Product;
use crate::summary::Summary;
use crate::truths::{AllTrue, AnyTrue};
use arrays_core::Kind;
use std::alloc::Global;

/// The joined parts of a line, one for each width from two numbers to all. They are in the list of the function; the other lists are empty.
#[derive(Drop)]
pub(crate) struct JoinedParts {
    pub(crate) sums: Vec<Summary>,
    pub(crate) products: Vec<Product>,
    pub(crate) greatest: Vec<Greatest>,
    pub(crate) least: Vec<Least>,
    pub(crate) all_true: Vec<AllTrue>,
    pub(crate) any_true: Vec<AnyTrue>,
}

/// The fold of a line with another number at a place, and the parts joined for it. `FoldTrees::set_joined` writes them
/// as nodes; `FoldTrees::join` reuses their memory.
#[derive(Drop)]
pub struct Joined {
    pub(crate) place: usize,
    pub(crate) number: i64,
    pub(crate) total: Result<i64, Kind>,
    pub(crate) joins: u32,
    pub(crate) parts: JoinedParts,
}

impl Joined {
    /// Returns an empty value for `FoldTrees::join` to fill. Allocates nothing.
    pub fn new(alloc: Global) -> Joined {
        Joined {
            place: 0,
            number: 0,
            total: Ok(0),
            joins: 0,
            parts: JoinedParts {
                sums: Vec::new(alloc),
                products: Vec::new(alloc),
                greatest: Vec::new(alloc),
                least: Vec::new(alloc),
                all_true: Vec::new(alloc),
                any_true: Vec::new(alloc),
            },
        }
    }

    /// Returns whether the parts were joined for this number at this place. Places are counted from 0.
    pub fn is_for(&self, place: usize, number: i64) -> bool
        ensures { IsTrue result ↔ (place ≡ self.now.place) × (number ≡ self.now.number) }
    {
        place == self.place && number == self.number
    }

    /// Returns the fold, or its error, and the number of joins.
    pub fn result(&self) -> (Result<i64, Kind>, u32)
        ensures { result ≡ (self.now.total, self.now.joins) }
    {
        (self.total, self.joins)
    }
}
