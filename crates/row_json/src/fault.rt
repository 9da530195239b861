//! Why an object is no row.
ghost use Rattle.row_json.specs.Reading.{out_of_memory};

use content_rows::Text;
use json_keys::Rule;
use std::alloc::AllocError;

/// Why an object was not read as a row.
#[derive(Drop, Debug)]
pub enum RowFault {
    /// The first rule that it breaks, and the outermost key that breaks it.
    Rule {
        /// The key, or `cell`.
        field: Text,
        /// The rule.
        rule: Rule,
    },
    /// Memory was wanting.
    OutOfMemory,
}

impl From<AllocError> for RowFault {
    ghost from_gives = { out_of_memory };

    fn from(_: AllocError) -> RowFault {
        RowFault::OutOfMemory
    }
}
