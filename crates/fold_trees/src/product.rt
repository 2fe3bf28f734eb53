//! The parts of folds by `×`.

ghost use Rattle.std.specs.Prelude.{◌≡◌, ◌^◌, ◌<◌, ◌≤◌, true, unsigned_abs, pos, ◌≤ℤ◌, neg_ℤ};
ghost use Rattle.function_names.specs.declared.scalar.Scalar2.TheVariants.{Times};
ghost use Rattle.fold_trees.specs.Products.{Products, AreOrdered, IsKeptOf, TellsProducts, kept_products, joined_products, products_of_none, before, product_told};

use crate::part::Part;
use arrays_core::Kind;

/// The greatest magnitude of a 64-bit number.
const FARTHEST: i128 = 1 << 63;

/// The product of two numbers of smaller magnitude is below 2 to the power 62.
const NEAR: u64 = 1 << 31;

/// The range of the suffix products of a list, as magnitudes below and above 0, and the distance of the total above the
/// least. The range includes 0, and 1 for the empty suffix. A range is far if it exceeds 64 bits, and with the other
/// sign as well. A longer list then fails, unless its later numbers multiply to 0. All fields of a far part are 2 to
/// the power 63, and mean nothing else.
#[derive(Clone, Copy)]
pub(crate) struct Product {
    below: u64,
    above: u64,
    total: u64,
}

impl Product {
    /// Returns the part of a list with this total and this range.
    fn of_products(total: i128, least: i128, greatest: i128) -> Product
        requires ordered { AreOrdered (record { total = total; least = least; greatest = greatest }) }
        requires low { neg_ℤ (pos (2 ^ 126)) ≤ℤ least }
        requires high { greatest ≤ℤ pos (2 ^ 126) }
        ensures { TellsProducts result (record { total = total; least = least; greatest = greatest }) }
    {
        if least < -FARTHEST || greatest > FARTHEST || greatest - least == 2 * FARTHEST {
            return Product {
                below: 1 << 63,
                above: 1 << 63,
                total: 1 << 63,
            };
        }
        Product {
            below: (-least) as u64,
            above: greatest as u64,
            total: (total - least) as u64,
        }
    }

    /// Returns the total of the list.
    fn total(&self) -> i128
        ensures { result ≡ (kept_products self.now).total }
    {
        i128::from(self.total) - i128::from(self.below)
    }

    /// Returns the least of 0 and the suffix products.
    fn least(&self) -> i128
        ensures { result ≡ (kept_products self.now).least }
    {
        -i128::from(self.below)
    }

    /// Returns the greatest of 0 and the suffix products.
    fn greatest(&self) -> i128
        ensures { result ≡ (kept_products self.now).greatest }
    {
        i128::from(self.above)
    }

    /// Returns the part of one number.
    fn single(number: i64) -> Product
        ensures { TellsProducts result (before number products_of_none) }
    {
        let size = number.unsigned_abs();
        if number < 0 {
            Product {
                below: size,
                above: 1,
                total: 0,
            }
        } else {
            Product {
                below: 0,
                above: size.max(1),
                total: size,
            }
        }
    }

    /// Returns whether the whole range is near 0.
    fn is_near(&self) -> bool
        ensures { result ≡ true → (self.now.below < 2 ^ 31) × (self.now.above < 2 ^ 31) }
    {
        self.below < NEAR && self.above < NEAR
    }

    /// Returns whether the range is far.
    fn is_far(&self) -> bool
        ensures { result ≡ true → (self.now.below ≡ 2 ^ 63) × (self.now.above ≡ 2 ^ 63) }
    {
        self.below == 1 << 63 && self.above == 1 << 63
    }

    /// Returns the total, which is near 0.
    fn near_total(&self) -> i64
        requires sound { AreOrdered (kept_products self.now) }
        requires near { (self.now.below < 2 ^ 31) × (self.now.above < 2 ^ 31) }
        ensures is { result ≡ (kept_products self.now).total }
        ensures near { unsigned_abs result ≤ 2147483647 }
    {
        self.total as i64 - self.below as i64
    }

    /// Returns the least of 0 and the suffix products, which is near 0.
    fn near_least(&self) -> i64
        requires { (self.now.below < 2 ^ 31) × (self.now.above < 2 ^ 31) }
        ensures is { result ≡ (kept_products self.now).least }
        ensures near { unsigned_abs result ≤ 2147483647 }
    {
        -(self.below as i64)
    }

    /// Returns the greatest of 0 and the suffix products, which is near 0.
    fn near_greatest(&self) -> i64
        requires { (self.now.below < 2 ^ 31) × (self.now.above < 2 ^ 31) }
        ensures is { result ≡ (kept_products self.now).greatest }
        ensures near { unsigned_abs result ≤ 2147483647 }
    {
        self.above as i64
    }

    /// Returns the part of a list with this total and this range, all of magnitude below 2 to the power 62.
    fn of_narrow(total: i64, least: i64, greatest: i64) -> Product
        requires ordered { AreOrdered (record { total = total; least = least; greatest = greatest }) }
        requires low { neg_ℤ (pos 4611686014132420609) ≤ℤ least }
        requires high { greatest ≤ℤ pos 4611686014132420609 }
        ensures { TellsProducts result (record { total = total; least = least; greatest = greatest }) }
    {
        Product {
            below: (-least) as u64,
            above: greatest as u64,
            total: (total - least) as u64,
        }
    }

    /// Returns the part of this list and a later one, both near 0. Computes in 64 bits.
    fn join_near(&self, later: &Product) -> Product
        requires here { (products : Products) × TellsProducts self.now products }
        requires near { (self.now.below < 2 ^ 31) × (self.now.above < 2 ^ 31) }
        requires later { (products : Products) × TellsProducts later.now products }
        requires later_near { (later.now.below < 2 ^ 31) × (later.now.above < 2 ^ 31) }
        ensures { (earlier : Products) → (rest : Products) → TellsProducts self.now earlier → TellsProducts later.now rest → TellsProducts result (joined_products earlier rest) }
    {
        let factor = later.near_total();
        let one = self.near_least() * factor;
        let other = self.near_greatest() * factor;
        let least = later.near_least().min(one.min(other));
        let greatest = later.near_greatest().max(one.max(other));
        Product::of_narrow(self.near_total() * factor, least, greatest)
    }

    /// Returns the part of this list and any later one. Computes in 128 bits.
    #[inline(never)]
    fn join_wide(&self, later: &Product) -> Product
        requires here { (products : Products) × TellsProducts self.now products }
        requires later { (products : Products) × TellsProducts later.now products }
        ensures { (earlier : Products) → (rest : Products) → TellsProducts self.now earlier → TellsProducts later.now rest → TellsProducts result (joined_products earlier rest) }
    {
        let factor = later.total();
        let one = self.least() * factor;
        let other = self.greatest() * factor;
        let least = later.least().min(one.min(other));
        let greatest = later.greatest().max(one.max(other));
        Product::of_products(self.total() * factor, least, greatest)
    }

    /// Returns the part of this list and a later one. If the later one is far, so is the result.
    fn followed_by(&self, later: &Product) -> Product
        requires here { (products : Products) × TellsProducts self.now products }
        requires later { (products : Products) × TellsProducts later.now products }
        ensures { (earlier : Products) → (rest : Products) → TellsProducts self.now earlier → TellsProducts later.now rest → TellsProducts result (joined_products earlier rest) }
    {
        if later.is_far() {
            return *later;
        }
        if self.is_near() && later.is_near() {
            return self.join_near(later);
        }
        // Copied by fields, so that the near case can stay in registers.
        let Product {
            below,
            above,
            total,
        } = self.join_wide(later);
        Product {
            below,
            above,
            total,
        }
    }

    /// Returns the product from the last number to the first. LIMIT where a suffix product leaves 64 bits.
    fn product(&self) -> Result<i64, Kind>
        requires { (products : Products) × TellsProducts self.now products }
        ensures { (products : Products) → TellsProducts self.now products → result ≡ product_told products }
    {
        if self.above >= 1 << 63 {
            return Err(Kind::Limit);
        }
        Ok(self.total() as i64)
    }
}

impl Part for Product {
    ghost function = { Times };

    ghost tells = { λ s xs. IsKeptOf xs s };

    ghost blank = { record { below = 0; above = 0; total = 0 } };

    fn of(number: i64) -> Product {
        Product::single(number)
    }

    fn join(&self, later: &Product) -> Product {
        self.followed_by(later)
    }

    fn fold(&self) -> Result<i64, Kind> {
        self.product()
    }
}
