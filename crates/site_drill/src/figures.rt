//! The figures of a drill, and what is printed of them.
ghost use Rattle.std.specs.Prelude.{◌≡◌, ◌++◌, OnOk, IfOk};
ghost use Rattle.sha2.specs.Sha256.{sha256};
ghost use Rattle.hex.specs.Hex.{encode_lower};
ghost use Rattle.site_drill.specs.Lines.{drill_text, line};

use sha2::{Digest, Sha256};
use std::alloc::{AllocError, Global};

/// What is told of a drill.
#[derive(Clone, Copy, Debug)]
pub struct Figures {
    /// How many replies show a page.
    pub pages: u64,
    /// How many edits were accepted.
    pub edits: u64,
    /// How many elements were built for all pages, up to the greatest u64.
    pub built: u64,
    /// How many bytes the replies have.
    pub bytes: u64,
    /// The SHA-256 of the replies, in hex digits.
    pub sha256: [u8; 64],
}

/// The SHA-256 of bytes, in hex digits.
#[tactic(auto, using(crate::proofs::Digest::sha256_len))]
pub(crate) fn digest_of(bytes: &[u8]) -> [u8; 64]
    ensures { result ≡ encode_lower (sha256 bytes.now) }
{
    let digest = Sha256::digest(bytes);
    let mut digits = [0u8; 64];
    if hex::encode_to_slice(&digest[..], &mut digits).is_err() {
        unreachable!();
    }
    digits
}

/// Adds a line that names a number.
fn add_line(text: &mut Vec<u8>, alloc: Global, word: &[u8], number: u64) -> Result<(), AllocError>
    ensures { OnOk result (text.new.items ≡ text.old.items ++ line word.now number) }
{
    let digits = number.to_string(alloc)?;
    text.extend_from_slice(word)?;
    text.extend_from_slice(digits.as_bytes())?;
    text.extend_from_slice(b"\n")?;
    Ok(())
}

/// The lines of a drill.
#[tactic(auto, unfolding(crate::specs::Lines::drill_text))]
pub(crate) fn drill_text(
    alloc: Global,
    number: u64,
    figures: &Figures,
) -> Result<Vec<u8>, AllocError>
    ensures { IfOk result (λ text. text.items ≡ drill_text number figures.now) }
{
    let mut text = Vec::new(alloc);
    add_line(&mut text, alloc, b"drill ", number)?;
    add_line(&mut text, alloc, b"requests ", 900)?;
    add_line(&mut text, alloc, b"pages ", figures.pages)?;
    add_line(&mut text, alloc, b"edits ", figures.edits)?;
    add_line(&mut text, alloc, b"built ", figures.built)?;
    add_line(&mut text, alloc, b"bytes ", figures.bytes)?;
    text.extend_from_slice(b"sha256 ")?;
    text.extend_from_slice(&figures.sha256)?;
    text.extend_from_slice(b"\n")?;
    Ok(text)
}
