//! The axis along which a function works.

ghost use Rattle.std.specs.Prelude.{◌≡◌, ◌<◌, IsTrue};
ghost use Rattle.function_names.specs.Axes.{is_axis, axis_at};

/// The axis along which a function works: the first, the last, or a written one, counted from 1.
#[derive(Clone, Copy, PartialEq, Eq, Debug)]
pub enum Along {
    /// The first axis.
    First,
    /// The last axis.
    Last,
    /// The axis with this number, counted from 1, which may not exist.
    Axis(i64),
}

impl Along {
    /// Returns true if the axis exists among `rank` axes; otherwise the function is AXIS ERROR. A scalar has a first and a last axis, for
    /// functions that leave it unchanged.
    pub fn is_axis(self, rank: u32) -> bool
        ensures { result ≡ is_axis rank self }
    {
        match self {
            Along::First => true,
            Along::Last => true,
            Along::Axis(axis) => 1 <= axis && axis <= i64::from(rank),
        }
    }

    /// Returns the index of the axis, counted from 0.
    pub fn axis_at(self, rank: u32) -> usize
        requires { IsTrue (is_axis rank self) }
        ensures is { result ≡ axis_at rank self }
        ensures below { 0 < rank → result < rank }
    {
        match self {
            Along::First => 0,
            Along::Last => rank.saturating_sub(1) as usize,
            Along::Axis(axis) => (axis.unsigned_abs() - 1) as usize,
        }
    }
}
