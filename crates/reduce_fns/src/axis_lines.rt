//! The lines along an axis of an array of numbers.

ghost use Rattle.std.specs.Prelude.{◌≡◌, ◌<◌, ◌≤◌, ◌+◌, ◌*◌, ◌%◌, length, map, drop, get_or, remove};
ghost use Rattle.arrays_core.specs.declared.item.Item.TheVariants.{Num};
ghost use Rattle.arrays_core.specs.Shapes.{size};

use crate::right_fold::stride;
use index_region::Seen;

/// Borrowed numbers of an array, in row-major order, seen as its lines along one axis. Each line is one place of the array without that axis.
#[derive(Clone, Copy)]
pub struct AxisLines<'a> {
    /// The numbers of all lines.
    pub numbers: &'a [i64],
    /// The distance between neighbours on a line.
    pub stride: usize,
    /// The number of items on a line.
    pub count: usize,
    /// The number of lines.
    pub places: usize,
    pub ghost apart: { 0 < stride },
    pub ghost some: { 1 ≤ count },
    pub ghost filled: { 0 < places },
    pub ghost whole: { places * count ≡ length numbers.now },
    pub ghost even: { places % stride ≡ 0 },
}

impl<'a> AxisLines<'a> {
    /// Borrows the numbers of a non-empty array as its lines along `axis`.
    pub fn along(array: &Seen, axis: usize, numbers: &'a [i64]) -> AxisLines<'a>
        requires numbers { array.now.items ≡ map (λ z. Num z) numbers.now }
        requires some { 0 < length numbers.now }
        requires there { axis < length array.now.shape }
        ensures numbers { result.numbers.now ≡ numbers.now }
        ensures stride { result.stride ≡ size (drop (axis + 1) array.now.shape) }
        ensures count { result.count ≡ get_or array.now.shape axis 0 }
        ensures places { result.places ≡ size (remove array.now.shape axis) }
    {
        let axes = array.shape();
        let count = axes[axis] as usize;
        AxisLines {
            numbers,
            stride: stride(axes.as_slice(), axis) as usize,
            count,
            places: numbers.len() / count,
        }
    }

    /// Borrows a list of numbers as a single line.
    pub fn one(numbers: &'a [i64]) -> AxisLines<'a>
        requires { 0 < length numbers.now }
        ensures numbers { result.numbers.now ≡ numbers.now }
        ensures stride { result.stride ≡ 1 }
        ensures count { result.count ≡ length numbers.now }
    {
        AxisLines {
            numbers,
            stride: 1,
            count: numbers.len(),
            places: 1,
        }
    }
}
