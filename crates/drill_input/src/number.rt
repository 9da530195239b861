//! The number that a drill is made from, as a text.
ghost use Rattle.std.specs.Prelude.{◌≡◌, IfOk};
ghost use Rattle.drill_input.specs.Number.{number_of};

use std::alloc::{AllocError, Global};

/// The number that a text writes in decimal, without a sign or a leading zero: any u64. `Err` only where memory is wanting.
pub fn number_of(alloc: Global, text: &str) -> Result<Option<u64>, AllocError>
    ensures { IfOk result (λ number. number ≡ number_of text.now) }
{
    let Ok(number) = text.parse::<u64>() else {
        return Ok(None);
    };
    let written = number.to_string(alloc)?;
    if written.as_bytes() == text.as_bytes() {
        Ok(Some(number))
    } else {
        Ok(None)
    }
}
