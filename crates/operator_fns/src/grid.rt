//! Folds of the rows of one list of numbers with the columns of another.

ghost use Rattle.std.specs.Prelude.{◌≡◌, ◌<◌, true, length};
ghost use Rattle.arrays_core.specs.declared.item.ItemType.TheVariants.{Nums};
ghost use Rattle.arrays_core.specs.Arrays.{collect, IsAnswerTo};
ghost use Rattle.arrays_core.specs.Shapes.{size, places_before, IsWithinLimits};
ghost use Rattle.item_fns.specs.Numbers.{dyadic_on_numbers};
ghost use Rattle.item_fns.specs.Items.{number_item};
ghost use Rattle.operator_fns.specs.RowByColumn.{cell, IsGridOf, IsPlain};

use crate::row_by_column::{NumberLines, StridedLine, fold_row};
use crate::row_folds::fold_matrices;
use arrays_core::{ApplyFault, Array, Kind, Shape, size};
use item_fns::Scalar2;
use reduce_fns::{NumberFunction, collect_numbers};
use std::alloc::Global;

/// The layout of the rows of one list of numbers and the columns of another.
#[derive(Clone, Copy)]
pub(crate) struct Grid {
    /// The number of columns.
    pub(crate) columns: usize,
    /// The number of entries of a row and of a column.
    pub(crate) count: usize,
    /// The distance between entries of a row; 0 if one number stands for all of them.
    pub(crate) row_stride: usize,
    /// The distance between entries of a column; 0 if one number stands for all of them.
    pub(crate) column_stride: usize,
}

impl Grid {
    /// Returns true only if the lists are two matrices in row-major order, and `places` is a positive number of whole rows.
    fn is_plain(&self, places: usize) -> bool
        requires { 0 < self.now.columns }
        ensures { result ≡ true → IsPlain self.now places }
    {
        self.row_stride == 1
            && self.column_stride == self.columns
            && places > 0
            && places % self.columns == 0
    }
}

/// Computes the fold of each row with each column.
#[derive(Drop)]
struct Cells<'a> {
    fold: Scalar2,
    each: Scalar2,
    left: &'a [i64],
    right: &'a [i64],
    grid: Grid,
    places: usize,
    ghost fits: { IsGridOf grid places (length left.now) (length right.now) },
}

impl<'a> NumberFunction for Cells<'a> {
    ghost places = { λ c. c.places };

    ghost number = { λ c. cell (dyadic_on_numbers c.fold) (dyadic_on_numbers c.each) c.left.now c.right.now c.grid };

    fn number_at(&self, place: usize) -> Result<i64, Kind> {
        let grid = self.grid;
        let row = StridedLine {
            first: place / grid.columns * grid.count,
            stride: grid.row_stride,
        };
        let column = StridedLine {
            first: place % grid.columns,
            stride: grid.column_stride,
        };
        let lines = NumberLines {
            fold: self.fold,
            each: self.each,
            left: self.left,
            row,
            right: self.right,
            column,
            count: grid.count,
        };
        fold_row(&lines)
    }
}

/// Folds each row with each column by two scalar functions. Matrices are folded a row of the result at a time. If that fails, each cell is folded
/// by itself to return the error of the first that fails.
pub(crate) fn grid_products(
    alloc: Global,
    fold: Scalar2,
    each: Scalar2,
    left: &[i64],
    right: &[i64],
    grid: Grid,
    shape: &Shape,
) -> Result<Array, ApplyFault>
    requires within { IsWithinLimits shape.now.items }
    requires fits { IsGridOf grid (size shape.now.items) (length left.now) (length right.now) }
    ensures { IsAnswerTo (collect Nums shape.now.items (λ index. number_item (cell (dyadic_on_numbers fold) (dyadic_on_numbers each) left.now right.now grid (places_before shape.now.items index)))) result }
{
    let places = size(shape.as_slice()) as usize;
    let cells = Cells {
        fold,
        each,
        left,
        right,
        grid,
        places,
    };
    if !grid.is_plain(places) {
        return collect_numbers(alloc, &cells, shape);
    }
    match fold_matrices(alloc, fold, each, left, right, grid, places) {
        Ok(folds) => Ok(Array::from_numbers(shape, folds)?),
        Err(ApplyFault::NoMemory) => Err(ApplyFault::NoMemory),
        Err(ApplyFault::Kind(_)) => collect_numbers(alloc, &cells, shape),
    }
}
