//! Numbers as a database holds them.
ghost use Rattle.std.specs.Prelude.{◌≡◌, ◌↔◌, IsTrue, IfOk, Some, string_bytes};
ghost use Rattle.keeper_sqlite.specs.Numbers.{count_in, head_in};

use std::alloc::{AllocError, Global};

/// The count that 8 bytes are, the most significant first.
pub(crate) fn count_in(bytes: &[u8]) -> Option<u64>
    ensures { result ≡ count_in bytes.now }
{
    match <[u8; 8]>::try_from(bytes) {
        Ok(bytes) => Some(u64::from_be_bytes(bytes)),
        Err(_) => None,
    }
}

/// The bytes of a count, which are read as that count.
pub(crate) fn count_bytes(count: u64) -> [u8; 8]
    ensures { count_in result ≡ Some count }
{
    count.to_be_bytes()
}

/// The number that a text is in decimal. `Err` only where memory is wanting.
pub(crate) fn head_in(alloc: Global, text: &[u8]) -> Result<Option<u64>, AllocError>
    ensures { IfOk result (λ head. head ≡ head_in text.now) }
{
    let Ok(digits) = str::from_utf8(text) else {
        return Ok(None);
    };
    let Ok(head) = digits.parse::<u64>() else {
        return Ok(None);
    };
    let written = head.to_string(alloc)?;
    if are_same(written.as_bytes(), text) {
        Ok(Some(head))
    } else {
        Ok(None)
    }
}

/// Whether two texts are the same.
fn are_same(one: &[u8], other: &[u8]) -> bool
    ensures { IsTrue result ↔ (one.now ≡ other.now) }
{
    one == other
}

/// The text of a number, which is read as that number. `Err` only where memory is wanting.
pub(crate) fn head_text(alloc: Global, head: u64) -> Result<String, AllocError>
    ensures { IfOk result (λ text. head_in (string_bytes text) ≡ Some head) }
{
    Ok(head.to_string(alloc)?)
}
