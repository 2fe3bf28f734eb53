//! Names: short texts of fixed size, compared and hashed by words.

ghost use Rattle.std.specs.Prelude.{◌≡◌, ℕ, ◌<◌, ◌≤◌, true, List, length, IfSome, IfNone};
ghost use Rattle.std.specs.Int.{w64, to_le_bytes};
ghost use Rattle.std.specs.Str.{is_utf8, chars};
ghost use Rattle.names.specs.Characters.{spells_name};
ghost use Rattle.names.specs.Limits.{longest_name};
ghost use Rattle.names.specs.Words.{most_words, count_of_words, word_at};

use crate::characters::spells_name;
use std::hash::{Hash, Hasher};
use std::marker::Model;

/// The greatest length of a name, in bytes.
pub const LONGEST_NAME: usize = 63;

/// The number of bytes in a word.
const WORD: usize = 8;

/// A name, which is an identifier of ISO 8485: its text in UTF-8, at most 63 bytes.
#[derive(Clone, Copy, Debug)]
pub struct Name {
    bytes: [u8; LONGEST_NAME],
    len: u8,
    /// An empty array that aligns a name, and each type that holds one, to words, so that it is copied by words.
    words: [u64; 0],
}

impl Model for Name {
    ghost use Rattle.std.specs.Prelude.{List, ℕ, take};

    ghost Value = { List ℕ };

    ghost use Rattle.names.specs.Laws.Stored.{stored, IsStored, stored_again};

    ghost view = { λ a. take a.len a.bytes };

    ghost invariant = { IsStored };

    ghost inverse = { stored };

    ghost inverse_ok = { stored_again };
}

impl Name {
    /// Returns the name that the whole text is, or `None`. A name begins with a letter, `A` to `Z`, `a` to `z`, `∆` or `⍙`. It continues with
    /// letters, digits and `_`, and has at most 63 bytes.
    pub fn read(text: &str) -> Option<Name>
        ensures some { IfSome result (λ n. (spells_name (chars text.now) ≡ true) × (length text.now ≤ longest_name) × (n ≡ text.now)) }
        ensures none { IfNone result (spells_name (chars text.now) ≡ true → longest_name < length text.now) }
    {
        if !spells_name(text) {
            return None;
        }
        Name::of_letters(text.as_bytes())
    }

    /// Returns the name with these bytes of UTF-8, or `None` if they are too many.
    #[inline]
    pub fn of_letters(letters: &[u8]) -> Option<Name>
        requires { is_utf8 letters.now ≡ true }
        ensures found { IfSome result (λ n. n ≡ letters.now) }
        ensures none { IfNone result (longest_name < length letters.now) }
        ensures room { IfSome result (λ n. length letters.now ≤ longest_name) }
    {
        if letters.len() > LONGEST_NAME {
            return None;
        }
        let mut bytes = [0; LONGEST_NAME];
        bytes[..letters.len()].copy_from_slice(letters);
        Some(Name {
            bytes,
            len: letters.len() as u8,
            words: [],
        })
    }

    /// Returns the bytes of the name, in UTF-8.
    pub fn bytes(&self) -> &[u8]
        ensures bytes { result.now ≡ self.now }
        ensures utf8 { is_utf8 self.now ≡ true }
        ensures short { length self.now ≤ longest_name }
    {
        &self.bytes[..self.len as usize]
    }

    /// Returns the number of words that the bytes take.
    fn words(&self) -> usize
        ensures count { result ≡ count_of_words self.now }
        ensures few { result ≤ most_words }
    {
        (self.len as usize).div_ceil(WORD)
    }

    /// Returns the word with this index, zeros after the end of the name included.
    fn word(&self, index: usize) -> u64
        requires { index < most_words }
        ensures { to_le_bytes w64 result ≡ word_at self.now index }
    {
        let room = &self.bytes;
        let from = (index * WORD).min(LONGEST_NAME - WORD);
        number_of([
            room[from],
            room[from + 1],
            room[from + 2],
            room[from + 3],
            room[from + 4],
            room[from + 5],
            room[from + 6],
            room[from + 7],
        ])
    }

    /// Returns the text of the name.
    pub fn text(&self) -> &str
        ensures { result.now ≡ self.now }
    {
        std::str::from_utf8(self.bytes()).unwrap()
    }
}

/// Converts bytes to a number, little end first.
fn number_of(bytes: [u8; WORD]) -> u64
    ensures { to_le_bytes w64 result ≡ bytes }
{
    u64::from_le_bytes(bytes)
}

impl PartialEq for Name {
    ghost use Rattle.std.proofs.Common.{rules};
    ghost use Rattle.std.specs.Cmp.Rules.{comparing};
    ghost use Rattle.std.specs.Str.{bytes_eq};

    ghost eq = { bytes_eq };

    ghost laws = { Prim.search (comparing, rules) };

    /// Compares words: comparing bytes takes several times as long.
    fn eq(&self, other: &Name) -> bool {
        if self.len != other.len {
            return false;
        }
        for index in 0..self.words() {
            if self.word(index) != other.word(index) {
                return false;
            }
        }
        true
    }
}

impl Eq for Name {
    ghost use Rattle.std.proofs.Common.{rules};
    ghost use Rattle.std.specs.Cmp.Rules.{comparing};

    ghost laws = { Prim.search (comparing, rules) };
}

impl Hash for Name {
    ghost use Rattle.std.proofs.Common.{rules};
    ghost use Rattle.std.specs.Cmp.Rules.{hashing};
    ghost use Rattle.names.specs.Words.{hashed_words};

    ghost hash_input = { hashed_words };

    ghost respects_eq = { Prim.search (hashing, rules) };

    /// Hashes words, so that equal names have the same hash: the zeros after the end are equal too.
    fn hash<H: Hasher>(&self, state: &mut H) {
        for index in 0..self.words() {
            state.write_u64(self.word(index));
        }
    }
}
