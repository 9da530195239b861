//! What is told where something may not be viewed, or is not there.
ghost use Rattle.std.specs.Prelude.{◌≡◌, IfOk};
ghost use Rattle.serde_json.specs.Data.{string};
ghost use Rattle.serde_json.specs.View.{view};
ghost use Rattle.row_kinds.specs.Look.{text_data};
ghost use Rattle.access_result.specs.Reason.{reason_text};
ghost use Rattle.json_out.specs.Told.{denied_json, no_target_json};

use crate::object::{no_keys, text_of, with_value};
use access_result::Reason;
use content_rows::Text;
use row_kinds::Write;
use serde_json::Value;
use std::alloc::{AllocError, Global};

/// A reason in words.
fn reason_value(alloc: Global, reason: &Reason) -> Result<Value, AllocError>
    ensures { IfOk result (λ v. view v ≡ text_data (reason_text reason.now)) }
{
    let words = Text::from_vec(reason.text(alloc)?);
    words.write(alloc)
}

/// What is told where access is denied (RFC 8259): the code `denied`, and the reason. `Err` only where memory is wanting.
pub fn denied_json(alloc: Global, reason: &Reason) -> Result<Vec<u8>, AllocError>
    ensures { IfOk result (λ text. text.items ≡ denied_json reason.now) }
{
    let map = no_keys(alloc);
    let map = with_value(alloc, map, "code", Value::try_from_str(alloc, "denied"));
    let map = with_value(alloc, map, "reason", reason_value(alloc, reason));
    text_of(alloc, map)
}

/// What is told where nothing is there (RFC 8259): the code `no-target`. `Err` only where memory is wanting.
pub fn no_target_json(alloc: Global) -> Result<Vec<u8>, AllocError>
    ensures { IfOk result (λ text. text.items ≡ no_target_json) }
{
    let map = no_keys(alloc);
    let map = with_value(alloc, map, "code", Value::try_from_str(alloc, "no-target"));
    text_of(alloc, map)
}
