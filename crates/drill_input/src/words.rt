//! Words with numbers, and machine names that stand in the code.
ghost use Rattle.std.specs.Prelude.{◌≡◌, IfOk, IsTrue};
ghost use Rattle.content_rows.specs.LiteralName.{is_name};
ghost use Rattle.drill_input.specs.SiteDrawn.{numbered};

use cacheability::Name;
use std::alloc::{AllocError, Global};

/// A word, and then a number in decimal.
pub(crate) fn numbered(alloc: Global, word: &[u8], number: u32) -> Result<Vec<u8>, AllocError>
    ensures { IfOk result (λ text. text.items ≡ numbered word.now number) }
{
    let digits = number.to_string(alloc)?;
    let mut text = Vec::from_slice(alloc, word)?;
    text.extend_from_slice(digits.as_bytes())?;
    Ok(text)
}

/// The machine name that these bytes are.
pub(crate) fn name_of(bytes: &[u8]) -> Name
    requires { IsTrue (is_name bytes.now) }
    ensures { result ≡ bytes.now }
{
    match Name::new(bytes) {
        Ok(name) => name,
        Err(_) => unreachable!(),
    }
}
