//! Scalar functions of two arrays as change rules.

ghost use Rattle.std.specs.Prelude.{◌≡◌, ℕ, List, Some, length, IsTrue, bytes_eq};
ghost use Rattle.std.proofs.Common.{rules};
ghost use Rattle.index_region.specs.ArgumentLists.{of_two_arguments};
ghost use Rattle.index_region.specs.Boxes.{join_boxes};
ghost use Rattle.change_core.specs.Reaches.{as_reach};
ghost use Rattle.scalar_fns.specs.EachDyadic.{KeepsPlaces, each_dyadic_form, each_dyadic_item, each_dyadic_rule};
ghost use Rattle.scalar_fns.specs.Laws.EachDyadic.{each_dyadic_tight};
ghost use Rattle.scalar_fns.specs.Laws.EachDyadicGrowth.{each_dyadic_growing};
ghost use Rattle.scalar_fns.specs.Growth.{is_extended_to};

use crate::scalar_extension::{apply_two, common_shape, extended_item};
use arrays_core::{ApplyFault, Array, Item, ItemType, Kind, Shape};
use change_core::{Announced, Reach, Reached};
use function_names::Scalar2;
use index_region::{ChangedBox, IndexBox, Intervals, Primitive, Seen, apply};
use item_fns::two;
use std::alloc::Global;

/// A scalar function of two arrays, item by item.
#[derive(Clone, Copy, PartialEq, Eq, Debug)]
pub struct EachDyadic {
    /// The function of two items.
    pub function: Scalar2,
}

/// Tests whether the other array has one item and no greater rank.
fn is_extended_to(array: &Seen, other: &Seen) -> bool
    ensures { result ≡ is_extended_to array.now other.now }
{
    let rank = other.shape().len();
    rank == 0 || (rank <= array.shape().len() && other.places() == 1)
}

/// Tests whether the two arrays have one shape. Not inlined: beside a scalar it is not needed, and neither is its stack.
#[inline(never)]
fn have_one_shape(left: &Seen, right: &Seen) -> bool
    ensures { result ≡ bytes_eq left.now.shape right.now.shape }
{
    left.shape().as_slice() == right.shape().as_slice()
}

/// Tests cheaply whether the checks pass and each changed array has the shape of the result. A negative answer decides nothing.
fn keep_places(left: &Seen, right: &Seen, left_changed: bool, right_changed: bool) -> bool
    ensures { IsTrue result → KeepsPlaces left.now right.now left_changed right_changed }
{
    match (left_changed, right_changed) {
        (true, true) => have_one_shape(left, right),
        (true, false) => is_extended_to(left, right) || have_one_shape(left, right),
        (false, _) => is_extended_to(right, left) || have_one_shape(left, right),
    }
}

/// Returns the hull of the changed boxes of both arguments.
fn joined<M: ChangedBox>(left: &M, right: &M) -> Reach
    requires { (a b : List (ℕ × ℕ)) → M.changed left.now ≡ Some a → M.changed right.now ≡ Some b → length a ≡ length b }
    ensures { result ≡ as_reach (join_boxes (M.changed left.now) (M.changed right.now)) }
{
    match (left.changed_box(), right.changed_box()) {
        (None, None) => Reach::Unmoved,
        (Some(region), None) => Reach::Inside(region.copy()),
        (None, Some(region)) => Reach::Inside(region.copy()),
        (Some(region), Some(other)) => Reach::Inside(region.hull(other)),
    }
}

impl Primitive for EachDyadic {
    ghost arity = { λ _. 2 };

    ghost form = { λ _ args. of_two_arguments each_dyadic_form args };

    ghost item = { λ e args index. of_two_arguments (λ a b. each_dyadic_item e.function a b index) args };

    fn shape_of(&self, args: &[Seen]) -> Result<(Shape, ItemType), Kind> {
        let (left, right) = (&args[0], &args[1]);
        let shape = common_shape(left.shape(), right.shape())?;
        Ok((shape, ItemType::Nums))
    }

    fn item_at(&self, args: &[Seen], index: &[u32]) -> Result<Item, Kind> {
        let (left, right) = (&args[0], &args[1]);
        two(
            self.function,
            extended_item(left, index),
            extended_item(right, index),
        )
    }
}

impl Announced for EachDyadic {
    ghost selectors = { λ e. (each_dyadic_rule e.function).selectors };

    ghost uses = { λ e. (each_dyadic_rule e.function).uses };

    ghost growth = { λ e. (each_dyadic_rule e.function).grows };

    fn grows(&self, args: &[Seen], grown: &[bool]) -> bool {
        let (left, right) = (&args[0], &args[1]);
        match (grown[0], grown[1]) {
            (true, false) => is_extended_to(left, right),
            (false, true) => is_extended_to(right, left),
            (true, true) => have_one_shape(left, right),
            (false, false) => false,
        }
    }

    fn selects(&self, _which: usize) -> bool {
        false
    }

    fn box_of(
        &self,
        args: &[Seen],
        shape: &[u32],
        which: usize,
        region: &IndexBox,
    ) -> Option<Intervals> {
        let (left, right) = (args[0].shape(), args[1].shape());
        let axes = if which == 0 { left } else { right };
        if axes.as_slice() == shape {
            return Some(region.intervals().copy());
        }
        Some(Intervals::whole(shape))
    }

    fn reached<M: ChangedBox>(&self, args: &[Seen], moved: &[M]) -> Result<Reached, Kind> {
        let (left, right) = (&args[0], &args[1]);
        let (of_left, of_right) = (&moved[0], &moved[1]);
        let left_changed = of_left.changed_box().is_some();
        let right_changed = of_right.changed_box().is_some();
        if !keep_places(left, right, left_changed, right_changed) {
            return self.reached_by_boxes(args, moved);
        }
        Ok(Reached {
            reach: joined(of_left, of_right),
            reads_few: true,
        })
    }

    fn whole(&self, alloc: Global, args: &[Seen]) -> Result<Array, ApplyFault> {
        match (args[0].array(), args[1].array()) {
            (Some(left), Some(right)) => apply_two(alloc, self.function, left, right),
            _ => apply(alloc, self, args),
        }
    }

    ghost counted = { λ _. Prim.search rules };

    ghost tight = { λ e. each_dyadic_tight e.function };

    ghost growing = { λ e. each_dyadic_growing e.function };
}
