//! The parts of folds by `⌈` and `⌊`: the greatest or the least number.

ghost use Rattle.std.specs.Prelude.{pos};
ghost use Rattle.function_names.specs.declared.scalar.Scalar2.TheVariants.{Maximum, Minimum};
ghost use Rattle.fold_trees.specs.Parts.{IsFold};

use crate::part::Part;
use arrays_core::Kind;

/// The greatest number of a list.
#[derive(Clone, Copy)]
pub(crate) struct Greatest {
    number: i64,
}

impl Part for Greatest {
    ghost function = { Maximum };

    ghost tells = { λ s. IsFold Maximum s.number };

    ghost blank = { record { number = pos 0 } };

    fn of(number: i64) -> Greatest {
        Greatest { number }
    }

    fn join(&self, later: &Greatest) -> Greatest {
        Greatest {
            number: self.number.max(later.number),
        }
    }

    fn fold(&self) -> Result<i64, Kind> {
        Ok(self.number)
    }
}

/// The least number of a list.
#[derive(Clone, Copy)]
pub(crate) struct Least {
    number: i64,
}

impl Part for Least {
    ghost function = { Minimum };

    ghost tells = { λ s. IsFold Minimum s.number };

    ghost blank = { record { number = pos 0 } };

    fn of(number: i64) -> Least {
        Least { number }
    }

    fn join(&self, later: &Least) -> Least {
        Least {
            number: self.number.min(later.number),
        }
    }

    fn fold(&self) -> Result<i64, Kind> {
        Ok(self.number)
    }
}
