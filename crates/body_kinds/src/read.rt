//! What is read of the body of an edit.
ghost use Rattle.std.specs.Prelude.{◌≡◌, IfOk};
ghost use Rattle.serde_json.specs.View.{view};
ghost use Rattle.json_keys.specs.Checked.{read_checked};
ghost use Rattle.json_keys.specs.Fault.{seen};
ghost use Rattle.body_kinds.specs.Bodies.{sent};

use content_rows::Text;
use json_keys::{Checked, Key, first_fault};
use row_kinds::Read;
use serde_json::Value;
use std::alloc::{AllocError, Global};

/// The body of an edit, which is read of JSON.
pub(crate) trait ReadBody: Drop {
    ghost use Rattle.serde_json.specs.Data.{Data};

    /// What is read of a value: of one that no table lets through something that nobody sees.
    ghost of: { Data → Self };

    /// Reads a value. `Err` only where memory is wanting.
    fn read_body(alloc: Global, value: &Value) -> Result<Self, AllocError>
        ensures { IfOk result (λ x. x ≡ of (view value.now)) };
}

/// What an object says as a body, by its table of keys, or the first rule that it breaks: that of
/// a key which is there, in the order of their bytes, else that of a missing key. `Err` only
/// where memory is wanting.
pub(crate) fn body_read<T: ReadBody>(
    alloc: Global,
    keys: &[Key],
    value: &Value,
) -> Result<Checked<T>, AllocError>
    ensures { IfOk result (λ c. c ≡ read_checked T.of (seen keys.now) (view value.now)) }
{
    match first_fault(keys, value) {
        Some((key, rule)) => Ok(Checked::Broken(Text::copied(alloc, key.as_bytes())?, rule)),
        None => Ok(Checked::Right(T::read_body(alloc, value)?)),
    }
}

/// The value at a key, where the key is there.
pub(crate) fn sent<T: Read>(
    alloc: Global,
    value: &Value,
    key: &str,
) -> Result<Option<T>, AllocError>
    ensures { IfOk result (λ o. o ≡ sent T.of key.now (view value.now)) }
{
    match value.get(key) {
        Some(found) => Ok(Some(T::read(alloc, found)?)),
        None => Ok(None),
    }
}
