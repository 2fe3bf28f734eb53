//! Array functions that are defined by their checks and their items.

ghost use Rattle.std.specs.Prelude.{◌≡◌, ◌++◌, ◌∷◌, [], List, ℕ, Result, Ok, IfOk, OnOk, length};
ghost use Rattle.arrays_core.specs.declared.item.Item.{Item as AnItem};
ghost use Rattle.arrays_core.specs.declared.item.Kind.{Kind as AKind};
ghost use Rattle.arrays_core.specs.Arrays.{ArrayValue, IsAnswerTo};
ghost use Rattle.arrays_core.specs.Building.{with_row};
ghost use Rattle.index_region.specs.Checks.{Form, form_of, whole};
ghost use Rattle.index_region.specs.Answers.{IsFormAnswerTo, IsPlaceOf, IsRowIn, HasTypeOf};

use crate::seen::Seen;
use arrays_core::{
    ApplyFault, Array, ArrayBuilder, Item, ItemFunction, ItemType, Kind, RowFunction, Shape,
    collect, collect_rows,
};
use std::alloc::{AllocError, Global};

/// An array function: the result of its checks, and its item at each index list of the result.
pub trait Primitive {
    ghost arity: { Self → ℕ };

    ghost form: { Self → List ArrayValue → Result Form AKind };

    ghost item: { Self → List ArrayValue → List ℕ → Result AnItem AKind };

    /// Checks the arguments in order, and returns the shape and type of the result. Allocates nothing.
    fn shape_of(&self, args: &[Seen]) -> Result<(Shape, ItemType), Kind>
        requires { length args.now ≡ arity self.now }
        ensures { IsFormAnswerTo (form self.now args.now) result };

    /// Returns the item at an index list of the result, after the checks have passed. Allocates nothing.
    fn item_at(&self, args: &[Seen], index: &[u32]) -> Result<Item, Kind>
        requires count { length args.now ≡ arity self.now }
        requires place { IsPlaceOf (form self.now args.now) index.now }
        ensures is { result ≡ item self.now args.now index.now }
        ensures typed { IfOk result (HasTypeOf (form self.now args.now)) };
}

/// An array function that computes its items by rows. A row lies along the last axis of the result.
pub trait RowPrimitive: Primitive {
    /// Appends one row to `items`: the items at the index lists `row` followed by 1 to `count`, after the checks have passed. If the
    /// allocator refuses memory, the contents of `items` are unspecified.
    fn extend_row(
        &self,
        args: &[Seen],
        row: &[u32],
        count: u32,
        items: &mut ArrayBuilder,
    ) -> Result<(), AllocError>
        requires arguments { length args.now ≡ Self.arity self.now }
        requires row { IsRowIn (Self.form self.now args.now) row.now count items.old.item_type }
        ensures items { OnOk result (with_row items.old.items (λ i. Self.item self.now args.now (row.now ++ i ∷ [])) count ≡ Ok items.new.items) }
        ensures typed { items.new.item_type ≡ items.old.item_type };
}

/// A function with arguments that have passed its checks.
#[derive(Drop)]
struct Applied<'a, 'b, P: Primitive> {
    primitive: &'a P,
    args: &'a [Seen<'b>],
    shape: &'a Shape,
    item_type: ItemType,
    ghost count: { length args.now ≡ P.arity primitive.now },
    ghost form: { P.form primitive.now args.now ≡ Ok (form_of shape.now.items item_type) },
}

impl<'a, 'b, P: Primitive> ItemFunction for Applied<'a, 'b, P> {
    ghost result_shape = { λ r. r.shape.now.items };

    ghost result_type = { λ r. r.item_type };

    ghost item = { λ r index. P.item r.primitive.now r.args.now index };

    fn item_at(&self, index: &[u32]) -> Result<Item, Kind> {
        self.primitive.item_at(self.args, index)
    }
}

impl<'a, 'b, P: RowPrimitive> RowFunction for Applied<'a, 'b, P> {
    fn extend_row(
        &self,
        row: &[u32],
        count: u32,
        items: &mut ArrayBuilder,
    ) -> Result<(), AllocError> {
        self.primitive.extend_row(self.args, row, count, items)
    }
}

/// Computes the whole result: first the checks, then the items. The first error in row-major order counts.
pub fn apply<P: Primitive>(alloc: Global, primitive: &P, args: &[Seen]) -> Result<Array, ApplyFault>
    requires { length args.now ≡ P.arity primitive.now }
    ensures { IsAnswerTo (whole (P.form primitive.now args.now) (P.item primitive.now args.now)) result }
{
    let (shape, item_type) = primitive.shape_of(args)?;
    let items = Applied {
        primitive,
        args,
        shape: &shape,
        item_type,
    };
    collect(alloc, &items, item_type, &shape)
}

/// Computes the whole result of a function by rows: first the checks, then the rows.
pub fn apply_rows<P: RowPrimitive>(
    alloc: Global,
    primitive: &P,
    args: &[Seen],
) -> Result<Array, ApplyFault>
    requires { length args.now ≡ P.arity primitive.now }
    ensures { IsAnswerTo (whole (P.form primitive.now args.now) (P.item primitive.now args.now)) result }
{
    let (shape, item_type) = primitive.shape_of(args)?;
    let items = Applied {
        primitive,
        args,
        shape: &shape,
        item_type,
    };
    collect_rows(alloc, &items, item_type, &shape)
}
