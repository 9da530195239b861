//! Words of chance.
ghost use Rattle.std.specs.Prelude.{◌≡◌, IsTrue};
ghost use Rattle.content_rows.specs.Kinds.{is_hex};
ghost use Rattle.edit_bodies.specs.Digits.{bytes_of, digits_of};

use cacheability::Name;
use row_kinds::name_of;

/// Two words of chance, of which a salt or a token is made.
#[derive(Clone, Copy, Debug, PartialEq, Eq)]
pub struct Words {
    /// The first that was drawn.
    pub first: u64,
    /// The second.
    pub second: u64,
}

/// The salt or the token of two words: the 16 lower-case hex digits of the first, and then those of
/// the second. It takes no memory.
pub fn digits_of(words: Words) -> Name
    ensures same { result ≡ digits_of words }
    ensures hex { IsTrue (is_hex 32 result) }
{
    name_of(&hex_of(words))
}

/// The hex digits of two words.
#[tactic(auto, using(crate::proofs::HexDigits::sixteen))]
fn hex_of(words: Words) -> [u8; 32]
    ensures { result ≡ digits_of words }
{
    let mut digits = [0u8; 32];
    if hex::encode_to_slice(&bytes_of(words)[..], &mut digits).is_err() {
        unreachable!();
    }
    digits
}

/// The bytes of two words, the highest of each first.
#[tactic(auto, unfolding(crate::specs::Digits::bytes_of))]
fn bytes_of(words: Words) -> [u8; 16]
    ensures { result ≡ bytes_of words }
{
    let [a, b, c, d, e, f, g, h] = words.first.to_be_bytes();
    let [i, j, k, l, m, n, o, p] = words.second.to_be_bytes();
    [a, b, c, d, e, f, g, h, i, j, k, l, m, n, o, p]
}
