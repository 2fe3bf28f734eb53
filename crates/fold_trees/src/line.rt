//! The slots and nodes of a line in the lists of all lines.

ghost use Rattle.std.specs.Prelude.{◌≡◌, ◌+◌, ◌^◌, ◌<◌, ◌≤◌};
ghost use Rattle.fold_trees.specs.ArrayLines.{line_through};
ghost use Rattle.fold_trees.specs.LineTrees.{slot_at, nth_node};
ghost use Rattle.fold_trees.specs.LineBlocks.{line_of};

/// The slots of a line's numbers in the list of numbers, and of its nodes in the list of nodes.
#[derive(Clone, Copy)]
pub(crate) struct Line {
    /// The count of its numbers.
    pub(crate) count: usize,
    /// The distance from one number to the next in the list, and from node to node.
    pub(crate) step: usize,
    /// The slot of the first number.
    pub(crate) slot: usize,
    /// The slot of the first node.
    pub(crate) node: usize,
}

impl Line {
    /// Returns the slot of a place.
    pub(crate) fn slot_at(&self, place: usize) -> usize
        requires { slot_at self.now place < 2 ^ 64 }
        ensures { result ≡ slot_at self.now place }
    {
        self.slot + place * self.step
    }

    /// Returns the slot of a node, counted from 1.
    pub(crate) fn nth_node(&self, node: usize) -> usize
        requires some { 1 ≤ node }
        requires fit { nth_node self.now node < 2 ^ 64 }
        ensures { result ≡ nth_node self.now node }
    {
        self.node + (node - 1) * self.step
    }

    /// Returns a line of the block that begins with this line, by its offset.
    pub(crate) fn nth(&self, column: usize) -> Line
        requires slot { self.now.slot + column < 2 ^ 64 }
        requires node { self.now.node + column < 2 ^ 64 }
        ensures { result ≡ line_of self.now column }
    {
        Line {
            count: self.count,
            step: self.step,
            slot: self.slot + column,
            node: self.node + column,
        }
    }
}

/// Returns the line of a place. Lines and places are counted from 0.
pub(crate) fn line_through(count: usize, step: usize, place: usize) -> usize
    requires some { 0 < count }
    requires apart { 0 < step }
    ensures { result ≡ line_through count step place }
{
    place / step / count * step + place % step
}
