//! The text of an array of any rank, from the text of a line and of a matrix.

ghost use Rattle.std.specs.Prelude.{◌≡◌, ◌*◌, ◌^◌, ◌<◌, ◌++◌, ℕ, List, length, OnOk, string_bytes};
ghost use Rattle.arrays_core.specs.Shapes.{size, IsWithinLimits};
ghost use Rattle.array_text.specs.Text.{planes, text_by_rank};

use crate::spacing::push_line_between;
use std::alloc::{AllocError, Global};

/// Items that can be printed.
pub(crate) trait Printed {
    // The text of a line of items.
    ghost line: { List Self → List ℕ };

    // The text of a matrix of items.
    ghost plane: { (rows columns : ℕ) → List Self → List ℕ };

    /// Appends a line of items.
    fn push_line(out: &mut String, items: &[Self]) -> Result<(), AllocError>
        ensures { OnOk result (string_bytes out.new ≡ string_bytes out.old ++ line items.now) };

    /// Appends a matrix of items.
    fn push_plane(
        alloc: Global,
        out: &mut String,
        rows: usize,
        columns: usize,
        items: &[Self],
    ) -> Result<(), AllocError>
        requires { length items.now ≡ rows * columns }
        ensures { OnOk result (string_bytes out.new ≡ string_bytes out.old ++ plane rows columns items.now) };
}

/// Appends planes, with an empty line between.
fn push_planes<T: Printed>(
    alloc: Global,
    out: &mut String,
    count: usize,
    rows: usize,
    columns: usize,
    items: &[T],
) -> Result<(), AllocError>
    requires fits { rows * columns < 2 ^ 64 }
    requires shape { length items.now ≡ count * (rows * columns) }
    ensures { OnOk result (string_bytes out.new ≡ string_bytes out.old
        ++ planes (T.plane rows columns) count (rows * columns) items.now) }
{
    if items.is_empty() {
        return Ok(());
    }
    let size = rows * columns;
    for part in 0..count {
        push_line_between(out, part)?;
        T::push_plane(
            alloc,
            out,
            rows,
            columns,
            &items[part * size..(part + 1) * size],
        )?;
    }
    Ok(())
}

/// Appends the items of an array.
pub(crate) fn push_items<T: Printed>(
    alloc: Global,
    out: &mut String,
    axes: &[u32],
    items: &[T],
) -> Result<(), AllocError>
    requires within { IsWithinLimits axes.now }
    requires long { length items.now ≡ size axes.now }
    ensures { OnOk result (string_bytes out.new ≡ string_bytes out.old ++ text_by_rank T.line T.plane axes.now items.now) }
{
    if axes.len() < 2 {
        return T::push_line(out, items);
    }
    let rows = axes[axes.len() - 2] as usize;
    let columns = axes[axes.len() - 1] as usize;
    if axes.len() == 2 {
        return T::push_plane(alloc, out, rows, columns, items);
    }
    if axes.len() == 3 {
        return push_planes(alloc, out, axes[0] as usize, rows, columns, items);
    }
    push_planes(
        alloc,
        out,
        axes[0] as usize * axes[1] as usize,
        rows,
        columns,
        items,
    )
}
