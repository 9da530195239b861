//! The jobs over a store: what a keeper holds is filled from a source of rows, written out, and checked, and its targets are listed.
//!
//! Each job is generic over its keeper, its source and its sink, and answers how it ended.
#![tactic(auto)]

mod fault;
mod ground;
mod importing;
mod job;
mod telling;
mod texts;

pub use fault::NoJob;
pub use ground::no_site;
pub use importing::{Counted, import_into};
pub use job::{JobEnd, import_rows};
pub use telling::{check_site, export_rows, list_targets};
pub use texts::{cell_fault_text, line_text};
