//! The value that guards the forms of a session.
ghost use Rattle.std.specs.Prelude.{◌≡◌};
ghost use Rattle.user_roles.specs.Csrf.{csrf_value};

use cacheability::Name;
use sha2::{Digest, Sha256};

/// The value that a form of the session with this token carries: the first 32 of the 64 hex digits,
/// `0` to `9` and `a` to `f`, of the SHA-256 of the token's text. It takes no memory.
/// <https://api.drupal.org/api/drupal/core!lib!Drupal!Core!Access!CsrfTokenGenerator.php/class/CsrfTokenGenerator/10>
#[tactic(auto, using(crate::proofs::Digest::sha256_len))]
pub fn csrf_of(token: &Name) -> [u8; 32]
    ensures { result ≡ csrf_value token.now }
{
    let digest = Sha256::digest(token.as_bytes());
    let mut digits = [0u8; 32];
    if hex::encode_to_slice(&digest[..16], &mut digits).is_err() {
        unreachable!();
    }
    digits
}
