//! The characters of a name.

ghost use Rattle.std.specs.Prelude.{◌≡◌};
ghost use Rattle.names.specs.Characters.{is_letter, is_name_part, spells_name};
ghost use Rattle.std.specs.Str.{chars};

/// Returns true if a name may begin with the character.
#[inline]
pub fn is_letter(c: char) -> bool
    ensures { result ≡ is_letter c }
{
    c.is_ascii_alphabetic() || c == '∆' || c == '⍙'
}

/// Returns true if a name may continue with the character.
#[inline]
pub fn is_name_part(c: char) -> bool
    ensures { result ≡ is_name_part c }
{
    is_letter(c) || c.is_ascii_digit() || c == '_'
}

/// Returns true if the whole text is a name, of any length.
pub(crate) fn spells_name(text: &str) -> bool
    ensures { result ≡ spells_name (chars text.now) }
{
    let mut rest = text.chars();
    let Some(first) = rest.next() else {
        return false;
    };
    is_letter(first) && rest.all(is_name_part)
}
