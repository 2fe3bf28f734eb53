//! The arguments of a node: their views, and the changed places of each.

ghost use Rattle.std.specs.Prelude.{◌≡◌, ◌||◌, IfOk, is_ok, map, not};
ghost use Rattle.std.specs.List.{list_all, list_any};
ghost use Rattle.arrays_core.specs.Arrays.{IsArray};
ghost use Rattle.change_core.specs.Tightness.{Each};
ghost use Rattle.change_rules.specs.Nodes.{AreArguments};
ghost use Rattle.change_rules.specs.Together.{is_unmoved, is_replaced, is_longer, is_longer_at_most};

use arrays_core::{Array, Fault};
use index_region::{Delta, Moved, Seen};
use smallvec::SmallVec;
use std::alloc::{AllocError, Global};

/// For each argument, whether it grew. Up to four arguments need no allocation.
type Marks = SmallVec<bool, 4>;

/// The views of arguments, and the changed places of each.
type Lists<'x> = (Vec<Seen<'x>>, Vec<Moved<'x>>);

/// Splits arguments into their views and their changed places.
pub(crate) fn lists_of<'x>(
    alloc: Global,
    args: &'x [(Seen, &Delta)],
) -> Result<Lists<'x>, AllocError>
    ensures { IfOk result (λ lists. AreArguments lists.0.items lists.1.items args.now) }
{
    let mut seen = Vec::new(alloc);
    let mut moved = Vec::new(alloc);
    for (view, delta) in args {
        seen.push(view.again())?;
        moved.push(Moved::of(delta))?;
    }
    Ok((seen, moved))
}

/// Establishes that the views are of arrays, by reading the shape of each.
pub(crate) fn views_are_arrays(seen: &[Seen])
    ensures { Each IsArray seen.now }
{
    if let Some((view, seen)) = seen.split_first() {
        let _is_array = view.shape();
        views_are_arrays(seen);
    }
}

/// Tells if no argument changed.
pub(crate) fn none_moved(moved: &[Moved]) -> bool
    ensures { result ≡ list_all is_unmoved moved.now }
{
    moved.iter().all(|places| matches!(places, Moved::Not))
}

/// Tells if some argument was replaced as a whole, by an array or an error.
fn any_anew(moved: &[Moved]) -> bool
    ensures { result ≡ list_any is_replaced moved.now }
{
    moved.iter().any(|places| matches!(places, Moved::Anew))
}

/// Tells if the node is evaluated from scratch: an argument was replaced as a whole, or the node held an error.
pub(crate) fn starts_anew(moved: &[Moved], held: &Result<Array, Fault>) -> bool
    ensures { result ≡ (list_any is_replaced moved.now || not (is_ok held.now)) }
{
    any_anew(moved) || held.is_err()
}

/// Tells if some argument grew.
pub(crate) fn any_longer(moved: &[Moved]) -> bool
    ensures { result ≡ list_any is_longer moved.now }
{
    moved.iter().any(|places| matches!(places, Moved::Longer))
}

/// Tells if each argument is the same or grew.
pub(crate) fn longer_at_most(moved: &[Moved]) -> bool
    ensures { result ≡ list_all is_longer_at_most moved.now }
{
    moved
        .iter()
        .all(|places| matches!(places, Moved::Not | Moved::Longer))
}

/// Marks the arguments that grew.
pub(crate) fn marks_of(alloc: Global, moved: &[Moved]) -> Result<Marks, AllocError>
    ensures { IfOk result (λ marks. marks.items ≡ map is_longer moved.now) }
{
    let mut marks = SmallVec::new(alloc);
    for places in moved {
        marks.push(matches!(places, Moved::Longer))?;
    }
    Ok(marks)
}
