//! The arrays of literals.

ghost use Rattle.apl_expr.specs.Trees.{literal_of, Numbers, Text};
ghost use Rattle.arrays_core.specs.Arrays.{IsAnswerTo};
ghost use Rattle.formula_core.specs.Meaning.{array_of};

use apl_expr::Literal;
use arrays_core::{ApplyFault, Array, copied};
use std::alloc::Global;

/// Makes the array of a literal: a scalar of one number or character, a vector of several. More than 1,048,576 items are LIMIT ERROR.
pub fn array_of(alloc: Global, literal: &Literal) -> Result<Array, ApplyFault>
    ensures { IsAnswerTo (array_of (literal_of literal.now)) result }
{
    match literal {
        Literal::Num(number) => Ok(Array::scalar(alloc, *number)?),
        Literal::Nums(numbers) => array_of_numbers(alloc, numbers),
        Literal::Char(character) => Ok(Array::character(alloc, *character)?),
        Literal::Text(characters) => array_of_text(alloc, characters),
    }
}

/// Makes the array of a list of numbers: a scalar of one, otherwise a vector.
fn array_of_numbers(alloc: Global, numbers: &[i64]) -> Result<Array, ApplyFault>
    ensures { IsAnswerTo (array_of (Numbers numbers.now)) result }
{
    if numbers.len() == 1 {
        return Ok(Array::scalar(alloc, numbers[0])?);
    }
    Array::vector(alloc, copied(alloc, numbers)?)
}

/// Makes the array of a text: a scalar of one character, otherwise a vector.
fn array_of_text(alloc: Global, characters: &[char]) -> Result<Array, ApplyFault>
    ensures { IsAnswerTo (array_of (Text characters.now)) result }
{
    if characters.len() == 1 {
        return Ok(Array::character(alloc, characters[0])?);
    }
    Array::text(alloc, copied(alloc, characters)?)
}
