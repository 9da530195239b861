//! The digests that stand for passwords.
#![tactic(auto)]

ghost use Rattle.std.specs.Prelude.{◌≡◌, ◌↔◌, ◌++◌, Some, IfOk, IsTrue};
ghost use Rattle.site_passwords.specs.Password.{digest_after, digest_text};
ghost use Rattle.sha2.specs.Sha256.{sha256};

use content_rows::{Text, User};
use sha2::{Digest, Sha256};
use std::alloc::{AllocError, Global};

/// How many rounds of SHA-256 a digest takes.
const ROUNDS: u32 = 1000;

/// The digest that a user's row keeps of this password with this salt: the 64 hex digits, `0` to `9` and `a` to `f`,
/// of the thousandth round. `Err` only where memory is wanting.
pub fn make_pass(alloc: Global, salt: &[u8], password: &[u8]) -> Result<Text, AllocError>
    ensures { IfOk result (λ digest. digest ≡ digest_text salt.now password.now) }
{
    Text::copied(alloc, &digits_of(salt, password))
}

/// Whether the user's row has a digest and it is the one that this password gives with the row's salt. It takes no
/// memory.
pub fn check_pass(user: &User, password: &[u8]) -> bool
    ensures { IsTrue result ↔ (user.now.digest ≡ Some (digest_text user.now.salt password.now)) }
{
    match &user.digest {
        Some(digest) => is_digest(digest.as_slice(), user.salt.as_slice(), password),
        None => false,
    }
}

/// Whether these digits are the digest of this password with this salt.
fn is_digest(digits: &[u8], salt: &[u8], password: &[u8]) -> bool
    ensures { IsTrue result ↔ (digits.now ≡ digest_text salt.now password.now) }
{
    let given = digits_of(salt, password);
    digits == given.as_slice()
}

/// The hex digits of the last round.
#[tactic(auto, using(crate::proofs::Rounds::round_len))]
fn digits_of(salt: &[u8], password: &[u8]) -> [u8; 64]
    ensures { result ≡ digest_text salt.now password.now }
{
    let digest = last_round(salt, password);
    let mut digits = [0u8; 64];
    if hex::encode_to_slice(&digest[..], &mut digits).is_err() {
        unreachable!();
    }
    digits
}

/// The bytes of the last round.
#[tactic(auto, using(crate::proofs::Rounds::next_round))]
fn last_round(salt: &[u8], password: &[u8]) -> [u8; 32]
    ensures { result ≡ digest_after 1000 salt.now password.now }
{
    let mut digest = first_round(salt, password);
    'rounds: for round in 1..ROUNDS {
        digest = joined(&digest, password);
    }
    digest
}

/// The SHA-256 of the salt, a colon and the password.
#[tactic(auto, unfolding(crate::specs::Password::digest_after))]
fn first_round(salt: &[u8], password: &[u8]) -> [u8; 32]
    ensures { result ≡ digest_after 1 salt.now password.now }
{
    let mut hasher = Sha256::new();
    hasher.update(salt);
    hasher.update(b":");
    hasher.update(password);
    hasher.finalize()
}

/// The SHA-256 of both pieces, one after the other.
fn joined(digest: &[u8], password: &[u8]) -> [u8; 32]
    ensures { result ≡ sha256 (digest.now ++ password.now) }
{
    let mut hasher = Sha256::new();
    hasher.update(digest);
    hasher.update(password);
    hasher.finalize()
}
