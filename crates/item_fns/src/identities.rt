//! The identities of the scalar functions.

ghost use Rattle.std.specs.Prelude.{◌≡◌};
ghost use Rattle.item_fns.specs.Identities.{identity_of};

use function_names::Scalar2;

/// Returns the identity of a function: its reduction of no items (ISO/IEC 13751, "Reduction"). Returns None for `⍲` and `⍱`. Allocates
/// nothing.
pub fn identity(function: Scalar2) -> Option<i64>
    ensures { result ≡ identity_of function }
{
    match function {
        Scalar2::Plus | Scalar2::Minus | Scalar2::Residue => Some(0),
        Scalar2::Times | Scalar2::Divide | Scalar2::Power => Some(1),
        Scalar2::Maximum => Some(i64::MIN),
        Scalar2::Minimum => Some(i64::MAX),
        Scalar2::Less | Scalar2::Greater | Scalar2::NotEqual => Some(0),
        Scalar2::LessOrEqual | Scalar2::Equal | Scalar2::GreaterOrEqual => Some(1),
        Scalar2::And => Some(1),
        Scalar2::Or => Some(0),
        Scalar2::Nand | Scalar2::Nor => None,
    }
}
