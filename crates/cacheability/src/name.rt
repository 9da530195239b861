//! Machine names.
ghost use Rattle.std.specs.Prelude.{
  ◌≡◌,
  ◌≤◌,
  ◌↔◌,
  ◌-◌,
  ◌++◌,
  ◌*◌,
  ℕ,
  List,
  length,
  replicate,
  IsTrue,
  IsOk,
  IfOk,
  Some,
  nat_eq,
  refl,
};
ghost use Rattle.std.specs.List.{sum};
ghost use Rattle.std.specs.Ordering.{nat_cmp};
ghost use Rattle.std.specs.Cmp.{partial_equiv_from_equiv};
ghost use Rattle.std.specs.Cmp.Lexicographic.{
  pointwise,
  slice_cmp,
  nat_list_eq_equiv,
  nat_list_cmp_total,
  texts_po,
  texts_ties,
};
ghost use Rattle.std.specs.Cmp.Rules.{hashing};
ghost use Rattle.std.specs.Hash as fed;
ghost use Rattle.std.proofs.Common.{rules};
ghost use Rattle.cacheability.specs.Name.{IsName, is_name_byte};

use std::cmp::Ordering;
use std::hash::{Hash, Hasher};
use std::marker::Model;

/// The text is no machine name.
#[derive(Clone, Copy, Debug, PartialEq, Eq)]
pub struct BadName;

/// A machine name, as Drupal gives one to a role, a content type, a menu, a view or a block: 1 to
/// 64 bytes of `a` to `z`, `0` to `9` and `_`. Contracts see it as the list of its bytes.
/// It is held in place and takes no memory.
#[derive(Clone, Copy, Debug)]
pub struct Name {
    buf: [u8; 64],
    len: u8,
}

impl Model for Name {
    ghost use Rattle.std.specs.Prelude.{ℕ, List};
    ghost use Rattle.cacheability.specs.NameView.{held_bytes, IsFilled, fields_of, fields_back};

    ghost Value = { List ℕ };

    ghost view = { held_bytes };

    ghost invariant = { IsFilled };

    ghost inverse = { fields_of };

    ghost inverse_ok = { fields_back };
}

impl Name {
    /// The name of these bytes; `BadName` exactly where they are fewer than 1 or more than 64, or
    /// one of them is no lower-case letter, digit or `_`.
    pub fn new(bytes: &[u8]) -> Result<Name, BadName>
        ensures exact { IsOk result ↔ IsName bytes.now }
        ensures same { IfOk result (λ n. n ≡ bytes.now) }
    {
        let fits = !bytes.is_empty() && bytes.len() <= 64;
        if fits && bytes.iter().all(|&b| is_byte_of_name(b)) {
            Ok(Name {
                buf: filled(bytes),
                len: bytes.len() as u8,
            })
        } else {
            Err(BadName)
        }
    }

    /// The bytes of the name.
    pub fn as_bytes(&self) -> &[u8]
        ensures same { result.now ≡ self.now }
        ensures of_name { IsName self.now }
    {
        &self.buf[..self.len as usize]
    }

    /// The sum of the bytes of the name.
    pub(crate) fn byte_sum(&self) -> u32
        ensures exact { result ≡ sum self.now }
        ensures small { result ≤ 64 * 255 }
    {
        sum_of(self.as_bytes())
    }
}

/// The sum of at most 64 bytes.
fn sum_of(bytes: &[u8]) -> u32
    requires { length bytes.now ≤ 64 }
    ensures exact { result ≡ sum bytes.now }
    ensures small { result ≤ 64 * 255 }
{
    let mut total = 0;
    'bytes: for byte in bytes {
        total += u32::from(*byte);
    }
    total
}

/// Whether a byte may stand in a name.
fn is_byte_of_name(byte: u8) -> bool
    ensures { result ≡ is_name_byte byte }
{
    (b'a' <= byte && byte <= b'z') || (b'0' <= byte && byte <= b'9') || byte == b'_'
}

/// The bytes at the front of a room of zeros.
fn filled(bytes: &[u8]) -> [u8; 64]
    requires { length bytes.now ≤ 64 }
    ensures { result ≡ bytes.now ++ replicate (64 - length bytes.now) 0 }
{
    let mut buf = [0; 64];
    'bytes: for i in 0..bytes.len() {
        buf[i] = bytes[i];
    }
    buf
}

impl PartialEq for Name {
    ghost eq = { λ a b. pointwise nat_eq a b };

    ghost laws = { partial_equiv_from_equiv nat_list_eq_equiv };

    fn eq(&self, other: &Self) -> bool {
        self.as_bytes() == other.as_bytes()
    }
}

impl Eq for Name {
    ghost laws = { nat_list_eq_equiv };
}

impl PartialOrd for Name {
    ghost partial_cmp = { λ a b. Some (slice_cmp nat_cmp a b) };

    ghost laws = { texts_po };

    fn partial_cmp(&self, other: &Self) -> Option<Ordering> {
        Some(self.cmp(other))
    }
}

impl Ord for Name {
    ghost cmp = { λ a b. slice_cmp nat_cmp a b };

    ghost total = { nat_list_cmp_total };

    ghost matches_partial_cmp = { λ a b. refl };

    ghost matches_eq = { λ a b. texts_ties a b };

    fn cmp(&self, other: &Self) -> Ordering {
        self.as_bytes().cmp(other.as_bytes())
    }
}

impl Hash for Name {
    ghost hash_input = { λ a. fed.slice fed.u8 a };

    ghost respects_eq = { Prim.search (hashing, rules) };

    fn hash<H: Hasher>(&self, state: &mut H) {
        self.as_bytes().hash(state);
    }
}
