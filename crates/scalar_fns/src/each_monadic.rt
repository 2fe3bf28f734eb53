//! Scalar functions of one array as change rules.

ghost use Rattle.std.proofs.Common.{rules};
ghost use Rattle.index_region.specs.ArgumentLists.{of_one_argument};
ghost use Rattle.scalar_fns.specs.EachMonadic.{each_monadic_form, each_monadic_item, each_monadic_rule};
ghost use Rattle.scalar_fns.specs.Laws.EachMonadic.{each_monadic_tight};
ghost use Rattle.scalar_fns.specs.Laws.EachMonadicGrowth.{each_monadic_growing};

use crate::scalar_extension::apply_one;
use arrays_core::{ApplyFault, Array, Item, ItemType, Kind, Shape, position, shape_of};
use change_core::{Announced, Reach, Reached};
use function_names::Scalar1;
use index_region::{ChangedBox, IndexBox, Intervals, Primitive, Seen, apply};
use item_fns::one;
use std::alloc::Global;

/// A scalar function of one array, item by item.
#[derive(Clone, Copy, PartialEq, Eq, Debug)]
pub struct EachMonadic {
    /// The function of an item.
    pub function: Scalar1,
}

impl Primitive for EachMonadic {
    ghost arity = { λ _. 1 };

    ghost form = { λ _ args. of_one_argument each_monadic_form args };

    ghost item = { λ e args index. of_one_argument (λ b. each_monadic_item e.function b index) args };

    fn shape_of(&self, args: &[Seen]) -> Result<(Shape, ItemType), Kind> {
        let shape = args[0].shape();
        Ok((
            shape_of(*shape.allocator(), shape.as_slice()),
            ItemType::Nums,
        ))
    }

    fn item_at(&self, args: &[Seen], index: &[u32]) -> Result<Item, Kind> {
        let array = &args[0];
        one(self.function, array.item(position(array.shape(), index)))
    }
}

impl Announced for EachMonadic {
    ghost selectors = { λ e. (each_monadic_rule e.function).selectors };

    ghost uses = { λ e. (each_monadic_rule e.function).uses };

    ghost growth = { λ e. (each_monadic_rule e.function).grows };

    fn grows(&self, _args: &[Seen], grown: &[bool]) -> bool {
        grown[0]
    }

    fn selects(&self, _which: usize) -> bool {
        false
    }

    fn box_of(
        &self,
        _args: &[Seen],
        _shape: &[u32],
        _which: usize,
        region: &IndexBox,
    ) -> Option<Intervals> {
        Some(region.intervals().copy())
    }

    fn reached<M: ChangedBox>(&self, _args: &[Seen], moved: &[M]) -> Result<Reached, Kind> {
        let reach = match moved[0].changed_box() {
            None => Reach::Unmoved,
            Some(region) => Reach::Inside(region.copy()),
        };
        Ok(Reached {
            reach,
            reads_few: true,
        })
    }

    fn whole(&self, alloc: Global, args: &[Seen]) -> Result<Array, ApplyFault> {
        match args[0].array() {
            Some(array) => apply_one(alloc, self.function, array),
            None => apply(alloc, self, args),
        }
    }

    ghost counted = { λ _. Prim.search rules };

    ghost tight = { λ e. each_monadic_tight e.function };

    ghost growing = { λ e. each_monadic_growing e.function };
}
