//! Sites into files and out of files: what a file of rows changes in a site, and the file of a site's rows.
#![tactic(auto)]

mod changes;
mod fault;
mod full;
mod laws;
mod line;
mod onto;
mod written;

pub use fault::{ExportFault, ImportFault};
pub use laws::{equal_lines_mean_equal_rows, import_of_export_changes_nothing};
pub use onto::{Imported, Onto, import};
pub use written::export;
