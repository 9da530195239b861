//! Requests that are known by their bytes.
ghost use Rattle.std.specs.Prelude.{◌≡◌, IfSome, IsTrue};
ghost use Rattle.http_heads.specs.declared.parsed.Parsed.TheVariants.{Whole};
ghost use Rattle.http_heads.specs.Parses.{Parses};
ghost use Rattle.site_http.specs.Known.{Begins, IsPlain};

use crate::call::Asked;
use http_heads::Request;
use std::alloc::Global;

/// No longer request is known by its bytes.
const LONGEST: usize = 1_024;

/// A whole request as it was sent, and what it asks: bytes that begin with the same ask the same.
#[derive(Drop)]
pub struct KnownRequest {
    pub bytes: Vec<u8>,
    pub asked: Asked,
}

impl KnownRequest {
    /// Whether bytes begin with the known request.
    pub fn begins(&self, bytes: &[u8]) -> bool
        ensures { IsTrue result → Begins self.now bytes.now }
    {
        let count = self.bytes.len();
        count <= bytes.len() && bytes.split_at(count).0 == self.bytes.as_slice()
    }
}

/// The bytes of a request, which are the first `size` of those that came, by which it is to be known. None where it asks to close,
/// where they are more than 1,024, or where memory is wanting for them.
pub fn plain_bytes(alloc: Global, bytes: &[u8], size: usize, request: &Request) -> Option<Vec<u8>>
    ensures { Parses bytes.now (Whole request.now size) → IfSome result (λ b. IsPlain b.items request.now) }
{
    if request.closes || size > LONGEST || size > bytes.len() {
        return None;
    }
    match Vec::from_slice(alloc, bytes.split_at(size).0) {
        Ok(front) => Some(front),
        Err(_) => None,
    }
}
