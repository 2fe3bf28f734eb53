//! Shape: the axis lengths of an array.

ghost use Rattle.std.specs.Prelude.{◌≡◌, length};
ghost use Rattle.std.proofs.Common.{rules};
ghost use Rattle.arrays_core.specs.Arrays.{IsAnswerTo};
ghost use Rattle.index_region.specs.ArgumentLists.{of_one_argument};
ghost use Rattle.change_core.proofs.Growing.{never_grows};
ghost use Rattle.selection_fns.specs.Shape.{shape_form, shape_item, shape_whole, shape_rule};
ghost use Rattle.selection_fns.specs.Laws.Shape.{shape_tight};

use arrays_core::{ApplyFault, Array, Item, ItemType, Kind, Shape, shape_of};
use change_core::Announced;
use index_region::{IndexBox, Intervals, Primitive, Seen, apply, limited};
use std::alloc::Global;

/// Shape, `⍴B` (ISO/IEC 13751, "Shape"): the lengths of the axes as a vector of numbers. It has no error.
#[derive(Clone, Copy, PartialEq, Eq, Debug)]
pub struct ShapeOf;

impl ShapeOf {
    /// Returns the vector of the axis lengths.
    pub fn apply(&self, alloc: Global, args: &[Seen]) -> Result<Array, ApplyFault>
        requires { length args.now ≡ 1 }
        ensures { IsAnswerTo (of_one_argument shape_whole args.now) result }
    {
        apply(alloc, self, args)
    }
}

impl Primitive for ShapeOf {
    ghost arity = { λ _. 1 };

    ghost form = { λ _ args. of_one_argument shape_form args };

    ghost item = { λ _ args index. of_one_argument (λ b. shape_item b index) args };

    fn shape_of(&self, args: &[Seen]) -> Result<(Shape, ItemType), Kind> {
        let shape = args[0].shape();
        limited(
            shape_of(*shape.allocator(), &[shape.len() as u32]),
            ItemType::Nums,
        )
    }

    fn item_at(&self, args: &[Seen], index: &[u32]) -> Result<Item, Kind> {
        let shape = args[0].shape();
        Ok(Item::Num(i64::from(shape[(index[0] - 1) as usize])))
    }
}

impl Announced for ShapeOf {
    ghost selectors = { λ _. shape_rule.selectors };

    ghost uses = { λ _ shape args. shape_rule.uses shape args };

    fn grows(&self, _args: &[Seen], _grown: &[bool]) -> bool {
        false
    }

    fn selects(&self, _which: usize) -> bool {
        false
    }

    fn box_of(
        &self,
        _args: &[Seen],
        _shape: &[u32],
        _which: usize,
        _region: &IndexBox,
    ) -> Option<Intervals> {
        None
    }

    fn whole(&self, alloc: Global, args: &[Seen]) -> Result<Array, ApplyFault> {
        self.apply(alloc, args)
    }

    ghost counted = { λ _. Prim.search rules };

    ghost tight = { λ _. shape_tight };

    ghost growing = { λ _. never_grows _ };
}
