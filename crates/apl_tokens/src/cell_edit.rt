//! Reads the edit of an item by a number from the bytes of a line. Builds no list of tokens and allocates nothing.

ghost use Rattle.std.specs.Prelude.{◌≡◌, ◌<◌, ◌≤◌, [], ◌∷◌, ◌++◌, length, IfSome};
ghost use Rattle.std.specs.Str.{chars};
ghost use Rattle.apl_tokens.specs.Lexemes.{Sign};
ghost use Rattle.apl_tokens.specs.Signs.{right_bracket};
ghost use Rattle.apl_tokens.specs.NumberEdits.{position_lexemes, IsNumberEdit};
ghost use Rattle.apl_tokens.specs.Reading.{Reads};

use crate::fronts::{after_arrow, name_front, number_front};
use names::Name;
use smallvec::SmallVec;
use std::alloc::Global;

/// The positions of a cell: up to four are stored inline, more on the heap.
pub type CellPositions = SmallVec<i64, 4>;

/// The edit of one item by a number: `NAME[positions]←number`.
#[derive(Debug, Drop)]
pub struct NumberEdit {
    /// The name whose item changes.
    pub name: Name,
    /// The position on each axis.
    pub positions: CellPositions,
    /// The new value of the item.
    pub number: i64,
}

/// Reads one to four positions from the front, with `;` between them and `]` at the end, and appends them to the list. Returns the bytes after
/// `]`.
fn positions_front<'a>(text: &'a [u8], positions: &mut CellPositions) -> Option<&'a [u8]>
    requires none { positions.old.items ≡ [] }
    requires inline { positions.old.capacity ≡ 4 }
    ensures reads { IfSome result (λ rest. Reads text.now rest.now (position_lexemes positions.new.items ++ Sign right_bracket ∷ [])) }
    ensures some { IfSome result (λ rest. 0 < length positions.new.items) }
    ensures few { IfSome result (λ rest. length positions.new.items ≤ 4) }
{
    let mut rest = text;
    for _ in 0_usize..4 {
        let (position, after) = number_front(rest)?;
        positions.push_reserved(position);
        let (sign, next) = after.split_first()?;
        match *sign {
            b';' => rest = next,
            b']' => return Some(next),
            _ => return None,
        }
    }
    None
}

/// Reads a line of the form `NAME[positions]←number`: a name in ASCII letters, one to four positions with `;` between them, and no blanks.
/// Returns `None` for every other line, and for some edits too.
pub fn number_edit(alloc: Global, text: &str) -> Option<NumberEdit>
    ensures { IfSome result (λ edit. IsNumberEdit (chars text.now) edit) }
{
    let Some(front) = name_front(text.as_bytes(), b'[') else {
        return None;
    };
    let mut positions = SmallVec::new(alloc);
    let rest = positions_front(front.rest, &mut positions)?;
    let rest = after_arrow(rest)?;
    let (number, rest) = number_front(rest)?;
    if !rest.is_empty() {
        return None;
    }
    Some(NumberEdit {
        name: front.name,
        positions,
        number,
    })
}
