//! Identifiers of segments and kinds of orders (FinTS 3.0, Formals, the segment head).
ghost use Rattle.std.specs.Prelude.{◌≡◌, ◌↔◌, ℕ, List, length, refl, Some, SomeIff, IsTrue};
ghost use Rattle.std.proofs.Common.{rules};
ghost use Rattle.std.specs.Cmp.Lexicographic.{nat_list_cmp_total, slice_cmp, texts_po, texts_ties};
ghost use Rattle.std.specs.Cmp.Rules.{comparing, hashing};
ghost use Rattle.std.specs.Ordering.{nat_cmp};
ghost use Rattle.std.specs.Hash as fed;
ghost use Rattle.std.specs.Str.{bytes_eq};
ghost use Rattle.fints_syntax_segments.specs.Kind.{kind_from, kind_word, is_frame_kind};
ghost use Rattle.fints_syntax_segments.specs.KindLaws.{is_kind_byte};

use std::cmp::Ordering;
use std::fmt;
use std::hash::{Hash, Hasher};
use std::marker::Model;

/// The identifier of a segment, or the kind of an order: 1 to 6 characters of A to Z and 0 to 9.
#[derive(Clone, Copy)]
pub struct Kind {
    bytes: [u8; 6],
    len: u8,
}

impl Model for Kind {
    ghost use Rattle.std.specs.Prelude.{ℕ, List};

    ghost Value = { List ℕ };

    ghost use Rattle.fints_syntax_segments.specs.KindFields.{text_of, IsPadded, fields_of, fields_of-text_of};

    ghost view = { text_of };

    ghost invariant = { IsPadded };

    ghost inverse = { fields_of };

    ghost inverse_ok = { fields_of-text_of };
}

impl PartialEq for Kind {
    ghost eq = { bytes_eq };

    ghost laws = { Prim.search (comparing, rules) };

    fn eq(&self, other: &Kind) -> bool {
        self.as_bytes() == other.as_bytes()
    }
}

impl Eq for Kind {
    ghost laws = { Prim.search (comparing, rules) };
}

impl PartialOrd for Kind {
    ghost partial_cmp = { λ x y. Some (slice_cmp nat_cmp x y) };

    ghost laws = { texts_po };

    fn partial_cmp(&self, other: &Kind) -> Option<Ordering> {
        Some(self.cmp(other))
    }
}

impl Ord for Kind {
    ghost cmp = { slice_cmp nat_cmp };

    ghost total = { nat_list_cmp_total };

    ghost matches_partial_cmp = { λ x y. refl };

    ghost matches_eq = { texts_ties };

    fn cmp(&self, other: &Kind) -> Ordering {
        self.as_bytes().cmp(other.as_bytes())
    }
}

impl Hash for Kind {
    ghost hash_input = { λ k. fed.u64 (kind_word k) };

    ghost respects_eq = { Prim.search (hashing, rules) };

    fn hash<H: Hasher>(&self, state: &mut H) {
        self.word().hash(state);
    }
}

fn is_kind_byte(b: u8) -> bool
    ensures { result ≡ is_kind_byte b }
{
    b.is_ascii_uppercase() || b.is_ascii_digit()
}

fn padded_kind(text: &[u8]) -> Option<Kind>
    ensures { result ≡ kind_from text.now }
{
    if text.is_empty() || text.len() > 6 {
        return None;
    }
    let mut bytes = [0; 6];
    for (i, b) in text.iter().enumerate() {
        if !is_kind_byte(*b) {
            return None;
        }
        bytes[i] = *b;
    }
    Some(Kind {
        bytes,
        len: text.len() as u8,
    })
}

/// Whether the kind is one of those that make the frame of a message.
pub fn is_frame_kind(text: &[u8]) -> bool
    ensures { result ≡ is_frame_kind text.now }
{
    text == b"HNHBK".as_slice()
        || text == b"HNVSK".as_slice()
        || text == b"HNVSD".as_slice()
        || text == b"HNSHK".as_slice()
        || text == b"HNSHA".as_slice()
        || text == b"HNHBS".as_slice()
}

impl fmt::Display for Kind {
    fn fmt<W: fmt::Write>(&self, f: &mut fmt::Formatter<W>) -> fmt::Result {
        for b in self.as_bytes() {
            f.write_char(char::from(*b))?;
        }
        Ok(())
    }
}

impl Kind {
    /// The identifier that the bytes spell, if they do.
    pub fn parse(text: &[u8]) -> Option<Kind>
        ensures value { result ≡ kind_from text.now }
    {
        padded_kind(text)
    }

    /// Whether the identifier is spelled so.
    pub fn is(&self, text: &[u8]) -> bool
        ensures { result ≡ bytes_eq self.now text.now }
    {
        self.as_bytes() == text
    }

    /// The characters as one number, for hashers: a kind of its own has a number of its own.
    pub fn word(&self) -> u64
        ensures { result ≡ kind_word self.now }
    {
        let [a, b, c, d, e, f] = self.bytes;
        u64::from_le_bytes([a, b, c, d, e, f, 0, 0])
    }

    /// The characters of the identifier.
    pub fn as_bytes(&self) -> &[u8]
        ensures { result.now ≡ self.now }
    {
        &self.bytes[..usize::from(self.len)]
    }
}
