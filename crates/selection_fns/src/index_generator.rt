//! Index generator: the numbers from 1 up.

ghost use Rattle.std.specs.Prelude.{◌≡◌, ◌≤◌, IfOk, length, map, pos};
ghost use Rattle.std.specs.List.{range_with_len};
ghost use Rattle.std.proofs.Common.{rules};
ghost use Rattle.arrays_core.specs.Limits.{longest_axis};
ghost use Rattle.arrays_core.specs.Arrays.{IsAnswerTo};
ghost use Rattle.index_region.specs.ArgumentLists.{of_one_argument};
ghost use Rattle.change_core.proofs.Growing.{never_grows};
ghost use Rattle.selection_fns.specs.IndexGenerator.{generator_form, generator_item, generator_whole, generator_rule};
ghost use Rattle.selection_fns.specs.Laws.IndexGenerator.{generator_tight};

use crate::axes::LONGEST_AXIS;
use arrays_core::{ApplyFault, Array, Item, ItemType, Kind, Shape, room_of, shape_of};
use change_core::Announced;
use index_region::{IndexBox, Intervals, Primitive, Seen, limited};
use std::alloc::{AllocError, Global};

/// Returns the numbers from 1 to `count`.
fn first_numbers(alloc: Global, count: u32) -> Result<Vec<i64>, AllocError>
    requires { count ≤ longest_axis }
    ensures { IfOk result (λ numbers. numbers.items ≡ map pos (range_with_len 1 count)) }
{
    let mut numbers = Vec::with_capacity(alloc, room_of(count as usize))?;
    for k in 0..count {
        numbers.push_reserved(i64::from(k + 1));
    }
    Ok(numbers)
}

/// Index generator, `⍳N` (ISO/IEC 13751, "Index Generator"): the vector of 1 to N. RANK where N is neither a scalar nor
/// a vector; LENGTH where it does not have one item; DOMAIN where the item is not a number or is negative; LIMIT beyond
/// the limits of arrays.
#[derive(Clone, Copy, PartialEq, Eq, Debug)]
pub struct IndexGenerator;

impl IndexGenerator {
    /// Returns the vector of 1 to N.
    pub fn apply(&self, alloc: Global, args: &[Seen]) -> Result<Array, ApplyFault>
        requires { length args.now ≡ 1 }
        ensures { IsAnswerTo (of_one_argument generator_whole args.now) result }
    {
        let (shape, _) = self.shape_of(args)?;
        let numbers = first_numbers(alloc, shape[0])?;
        Array::vector(alloc, numbers)
    }
}

impl Primitive for IndexGenerator {
    ghost arity = { λ _. 1 };

    ghost form = { λ _ args. of_one_argument generator_form args };

    ghost item = { λ _ args index. of_one_argument (λ n. generator_item n index) args };

    fn shape_of(&self, args: &[Seen]) -> Result<(Shape, ItemType), Kind> {
        let count = &args[0];
        let shape = count.shape();
        if shape.len() > 1 {
            return Err(Kind::Rank);
        }
        if count.places() != 1 {
            return Err(Kind::Length);
        }
        if !count.counts_as_numbers() {
            return Err(Kind::Domain);
        }
        let number = count.number(1);
        if number < 0 {
            return Err(Kind::Domain);
        }
        if number.unsigned_abs() > LONGEST_AXIS {
            return Err(Kind::Limit);
        }
        limited(
            shape_of(*shape.allocator(), &[number as u32]),
            ItemType::Nums,
        )
    }

    fn item_at(&self, _args: &[Seen], index: &[u32]) -> Result<Item, Kind> {
        Ok(Item::Num(i64::from(index[0])))
    }
}

impl Announced for IndexGenerator {
    ghost selectors = { λ _. generator_rule.selectors };

    ghost uses = { λ _ shape args. generator_rule.uses shape args };

    fn grows(&self, _args: &[Seen], _grown: &[bool]) -> bool {
        false
    }

    fn selects(&self, which: usize) -> bool {
        which == 0
    }

    fn box_of(
        &self,
        _args: &[Seen],
        _shape: &[u32],
        _which: usize,
        _region: &IndexBox,
    ) -> Option<Intervals> {
        None
    }

    fn whole(&self, alloc: Global, args: &[Seen]) -> Result<Array, ApplyFault> {
        self.apply(alloc, args)
    }

    ghost counted = { λ _. Prim.search rules };

    ghost tight = { λ _. generator_tight };

    ghost growing = { λ _. never_grows _ };
}
