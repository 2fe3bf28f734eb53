//! The classes of characters in a line.

ghost use Rattle.std.specs.Prelude.{◌≡◌};
ghost use Rattle.apl_tokens.specs.Characters.{is_blank, sign_of, joins_number};

use names::is_letter;

/// Returns true for a blank, which separates tokens.
pub(crate) fn is_blank(c: char) -> bool
    ensures { result ≡ is_blank c }
{
    c == ' ' || c == '\t'
}

/// Returns the first spelling of a sign, which is a token of its own, or `None` for any other character.
#[tactic(auto, unfolding(crate::specs::Characters::sign_of))]
pub(crate) fn sign_of(c: char) -> Option<char>
    ensures { result ≡ sign_of c }
{
    match c {
        '+' | '-' | '×' | '÷' | '*' => Some(c),
        '|' | '⌈' | '⌊' | '~' => Some(c),
        '<' | '≤' | '=' | '≥' | '>' | '≠' => Some(c),
        '∧' | '∨' | '⍲' | '⍱' => Some(c),
        '⍴' | ',' | '⍪' | '↑' | '↓' => Some(c),
        '⌽' | '⊖' | '⍉' => Some(c),
        '/' | '⌿' | '\\' | '⍀' => Some(c),
        '⍳' | '∊' | '⊤' | '⊥' => Some(c),
        '∘' | '.' | '←' => Some(c),
        '(' | ')' | '[' | ']' | ';' => Some(c),
        '∣' => Some('|'),
        '∼' => Some('~'),
        '⋆' => Some('*'),
        '^' => Some('∧'),
        '∈' => Some('∊'),
        _ => None,
    }
}

/// Returns true if the character may not follow a number directly.
pub(crate) fn joins_number(c: char) -> bool
    ensures { result ≡ joins_number c }
{
    is_letter(c) || c == '_' || c == '¯'
}
