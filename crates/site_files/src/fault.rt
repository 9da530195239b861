//! Why a file gave no rows.
ghost use Rattle.site_files.specs.Faults.{is_memory, is_source};

use content_rows::Text;
use content_state::NotASite;
use json_keys::Rule;
use site_io::Failed;
use std::alloc::AllocError;

/// What is wrong with a line.
#[derive(Drop, Debug)]
pub enum LineFault {
    /// It is no JSON, or no object.
    BadJson,
    /// The rule that it breaks, and the key that breaks it, `cell`, or `-` for a rule on lines.
    Rule {
        /// The key.
        field: Text,
        /// The rule.
        rule: Rule,
    },
}

/// Why a file gave no rows.
#[derive(Drop, Debug)]
pub enum ReadFault {
    /// The first line that is no row.
    Line {
        /// Its number, from 1.
        number: u32,
        /// What is wrong with it.
        fault: LineFault,
    },
    /// The first cell that breaks a rule on the rows of a site.
    Cell(NotASite),
    /// The source failed: its count of faults rose.
    Source,
    /// Memory was wanting.
    OutOfMemory,
}

impl From<AllocError> for ReadFault {
    ghost from_gives = { is_memory };

    fn from(_: AllocError) -> ReadFault {
        ReadFault::OutOfMemory
    }
}

impl From<Failed> for ReadFault {
    ghost from_gives = { is_source };

    fn from(_: Failed) -> ReadFault {
        ReadFault::Source
    }
}
