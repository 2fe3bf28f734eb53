//! The items of a box of a scan, line by line.

ghost use Rattle.std.specs.Prelude.{◌≡◌, ◌<◌, ℕ, length, get_or, IfSome, IsTrue, Ok};
ghost use Rattle.arrays_core.specs.declared.fault.ApplyFault.TheVariants.{Kind as KindFault};
ghost use Rattle.arrays_core.specs.declared.item.ItemType.TheVariants.{Nums};
ghost use Rattle.arrays_core.specs.Arrays.{IsArray};
ghost use Rattle.change_core.specs.Parts.{HoldsItems, items_in};
ghost use Rattle.index_region.specs.Answers.{IsPlaceOf};
ghost use Rattle.function_names.specs.Axes.{axis_at};
ghost use Rattle.index_region.specs.Boxes.{fits, is_within};
ghost use Rattle.index_region.specs.Checks.{form_of};
ghost use Rattle.scan_fns.specs.Scan.{scan_form, scan_item};
ghost use Rattle.scan_fns.specs.BoxLines.{Holds, IsOneError, FillsBox, LineIsIn};

use crate::scan::Scan;
use arrays_core::{ApplyFault, Array, ItemType, Kind, shape_of, with_axis, without_axis};
use index_region::{IndexBox, Seen};
use std::alloc::Global;

/// Returns the error kind of a fault; None for a lack of memory.
fn kind_of(fault: ApplyFault) -> Option<Kind>
    ensures { IfSome result (λ kind. fault ≡ KindFault kind) }
{
    match fault {
        ApplyFault::Kind(kind) => Some(kind),
        ApplyFault::NoMemory => None,
    }
}

/// Writes one line of a box of a scan into a table of the items of the box; the line starts at `index`. Returns the first error on the line. None if
/// the line cannot be computed in one pass.
fn write_line(
    scan: &Scan,
    alloc: Global,
    array: &Seen,
    axis: usize,
    region: &IndexBox,
    index: &[u32],
    table: &mut Array,
) -> Option<Result<(), Kind>>
    requires place { IsPlaceOf (scan_form scan.now.along array.now) index.now }
    requires meant { axis ≡ axis_at (length array.now.shape) scan.now.along }
    requires there { axis < length array.now.shape }
    requires sound { IsArray array.now }
    requires fit { IsTrue (fits region.now array.now.shape) }
    requires inside { IsTrue (is_within region.now index.now) }
    requires begins { get_or index.now axis 1 ≡ (get_or region.now axis (0, 0)).0 }
    requires table { FillsBox region.now table.old }
    ensures table { FillsBox region.now table.new }
    ensures keeps { (place : ℕ) → Holds (scan_item scan.now.function scan.now.along array.now) region.now table.old place → Holds (scan_item scan.now.function scan.now.along array.now) region.now table.new place }
    ensures line { IfSome result (LineIsIn (scan_item scan.now.function scan.now.along array.now) region.now axis index.now table.new) }
{
    let (first, last) = region.as_slice()[axis];
    let answer = scan.along_line(alloc, array, index, last)?;
    let line = match answer {
        Ok(line) => line,
        Err(fault) => {
            let kind = kind_of(fault)?;
            return Some(Err(kind));
        }
    };
    let others = without_axis(alloc, index, axis);
    for before in 0..last + 1 - first {
        let place = with_axis(alloc, others.as_slice(), axis, first + before);
        let offset = region.offset(place.as_slice());
        table.write_at(offset as u32 + 1, line.item(before + 1));
    }
    Some(Ok(()))
}

/// Returns the error common to the lines so far and one more line, if any fails; None if two errors differ.
fn one_error(failed: Option<Kind>, line: Result<(), Kind>) -> Option<Option<Kind>>
    ensures { IfSome result (IsOneError failed line) }
{
    let Err(kind) = line else {
        return Some(failed);
    };
    match failed {
        Some(other) if other != kind => None,
        _ => Some(Some(kind)),
    }
}

/// Returns the items of a box of a scan, or its first error, in one pass per line. None if memory is short, a line cannot be computed in one pass, or
/// two lines fail with different errors.
pub(crate) fn items_by_lines(
    scan: &Scan,
    alloc: Global,
    array: &Seen,
    axis: usize,
    region: &IndexBox,
) -> Option<Result<Array, ApplyFault>>
    requires sound { IsArray array.now }
    requires checked { scan_form scan.now.along array.now ≡ Ok (form_of array.now.shape Nums) }
    requires meant { axis ≡ axis_at (length array.now.shape) scan.now.along }
    requires there { axis < length array.now.shape }
    requires fit { IsTrue (fits region.now array.now.shape) }
    ensures { IfSome result (HoldsItems Nums (items_in (scan_item scan.now.function scan.now.along array.now) region.now)) }
{
    let places = region.size();
    let shape = shape_of(alloc, &[places as u32]);
    let Ok(mut table) = Array::filled(alloc, ItemType::Nums, &shape) else {
        return None;
    };
    let (first, _) = region.as_slice()[axis];
    let mut index = region.index_at(0);
    let mut failed = None;
    for _place in 0..places {
        if index.as_slice()[axis] == first {
            let line = index.as_slice();
            let answer = write_line(scan, alloc, array, axis, region, line, &mut table)?;
            failed = one_error(failed, answer)?;
        }
        region.advance(&mut index);
    }
    if let Some(kind) = failed {
        return Some(Err(ApplyFault::Kind(kind)));
    }
    Some(Ok(table))
}
