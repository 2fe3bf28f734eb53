//! A patch of an array whose lines have trees, with the parts joined for it.

use fold_trees::Joined;
use index_region::Patch;

/// A patch. If it has one place, it comes with the new fold of its line and the parts joined for it.
#[derive(Drop)]
pub struct JoinedPatch {
    pub(crate) patch: Patch,
    pub(crate) is_joined: bool,
    pub(crate) joined: Joined,
}
