//! Which edit a request asks for: what its method and its path name, and what its body is to be.
#![tactic(auto)]

mod edit;
mod media;
mod paths;

pub use edit::Edit;
pub use media::{Reads, media_fits, reads_of};
pub use paths::EditPaths;
