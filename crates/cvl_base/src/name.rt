//! Words and names of a script.

ghost use Rattle.std.specs.Prelude.{◌≡◌, Some, IsTrue, SomeIff, nat_eq, refl};
ghost use Rattle.std.specs.List.{list_all};
ghost use Rattle.std.specs.Ordering.{nat_cmp};
ghost use Rattle.std.specs.Cmp.{on_equiv, on_total, on_po, on_per, partial_equiv_from_equiv};
ghost use Rattle.std.specs.Cmp.Lexicographic.{pointwise, slice_cmp, nat_list_eq_equiv, nat_list_cmp_total, texts_po, texts_ties};
ghost use Rattle.cvl_base.specs.Words.{is_word, is_word_byte, is_name};

use crate::limits::MOST_WORD_BYTES;
use std::cmp::Ordering;
use std::fmt;
use std::marker::Model;

fn are_word_bytes(bytes: &[u8]) -> bool
    ensures { result ≡ list_all is_word_byte bytes.now }
{
    bytes
        .iter()
        .all(|b| b.is_ascii_alphanumeric() || *b == b'_')
}

/// Whether the bytes are a word: a letter of ASCII followed by letters, digits and underscores, 1 to 32 bytes in all.
pub fn is_word_text(bytes: &[u8]) -> bool
    ensures { result ≡ is_word bytes.now }
{
    match bytes.split_first() {
        None => false,
        Some((first, others)) => {
            let begins = first.is_ascii_alphabetic();
            let goes_on = are_word_bytes(others);
            let fits = bytes.len() <= MOST_WORD_BYTES;
            begins && goes_on && fits
        }
    }
}

/// Whether the bytes are a name: a word other than `write`, `T` and `F`.
pub fn is_name_text(bytes: &[u8]) -> bool
    ensures { result ≡ is_name bytes.now }
{
    is_word_text(bytes)
        && !(bytes == b"write".as_slice() || bytes == b"T".as_slice() || bytes == b"F".as_slice())
}

/// A name that a value is bound to: a word other than `write`, `T` and `F`. Its model is its bytes, by which names are ordered;
/// it takes no memory.
#[derive(Clone, Copy)]
pub struct Name {
    /// The bytes of the name, and zeros after them.
    bytes: [u8; MOST_WORD_BYTES],
    len: usize,
}

impl Model for Name {
    ghost use Rattle.std.specs.Prelude.{◌≡◌, ℕ, ◌≤◌, List, length, take, IsTrue};
    ghost use Rattle.cvl_base.specs.Limits.{most_word_bytes};
    ghost use Rattle.cvl_base.specs.Words.{is_name};
    ghost use Rattle.cvl_base.specs.NameBytes.{padded};

    ghost Value = { List ℕ };

    ghost view = { λ n. take n.len n.bytes };

    ghost invariant = { λ n. (n.len ≤ most_word_bytes) × (n.bytes ≡ padded (take n.len n.bytes))
        × (n.len ≡ length (take n.len n.bytes)) × IsTrue (is_name (take n.len n.bytes)) };

    ghost inverse = { λ bytes. record { bytes = padded bytes; len = length bytes } };

    ghost use Rattle.std.proofs.Common.{sym};

    ghost inverse_ok = { λ n h i. record { bytes = sym h.1 i; len = sym h.2 i } };
}

impl Name {
    /// The name with these bytes, if they are a name.
    pub fn new(bytes: &[u8]) -> Option<Name>
        ensures { SomeIff result (IsTrue (is_name bytes.now)) bytes.now }
    {
        if !is_name_text(bytes) {
            return None;
        }
        let len = bytes.len();
        let mut padded = [0; MOST_WORD_BYTES];
        padded[..len].copy_from_slice(bytes);
        Some(Name { bytes: padded, len })
    }

    /// The bytes of the name.
    pub fn as_bytes(&self) -> &[u8]
        ensures value { result.now ≡ self.now }
        ensures name { IsTrue (is_name result.now) }
    {
        &self.bytes[..self.len]
    }
}

impl PartialEq for Name {
    ghost eq = { λ s t. pointwise nat_eq s t };

    ghost laws = { on_per (λ s. s) (partial_equiv_from_equiv nat_list_eq_equiv) };

    fn eq(&self, other: &Self) -> bool {
        self.as_bytes() == other.as_bytes()
    }
}

impl Eq for Name {
    ghost laws = { on_equiv (λ s. s) nat_list_eq_equiv };
}

impl PartialOrd for Name {
    ghost partial_cmp = { λ s t. Some (slice_cmp nat_cmp s t) };

    ghost laws = { on_po (λ s. s) texts_po };

    fn partial_cmp(&self, other: &Self) -> Option<Ordering> {
        Some(self.cmp(other))
    }
}

impl Ord for Name {
    ghost cmp = { λ s t. slice_cmp nat_cmp s t };

    ghost total = { on_total (λ s. s) nat_list_cmp_total };

    ghost matches_partial_cmp = { λ s t. refl };

    ghost matches_eq = { λ s t. texts_ties s t };

    fn cmp(&self, other: &Self) -> Ordering {
        self.as_bytes().cmp(other.as_bytes())
    }
}

/// As the text of its bytes, which are ASCII.
impl fmt::Debug for Name {
    fn fmt<W: fmt::Write>(&self, f: &mut fmt::Formatter<W>) -> fmt::Result {
        fmt::Debug::fmt(str::from_utf8(self.as_bytes()).unwrap_or(""), f)
    }
}
