//! Pages put together: an element is built, each of its places is filled in with the element that stands there, and the
//! lines of the libraries are written last.
#![tactic(auto)]

mod assembling;
mod filled;
mod levels;
mod page;
mod parts;

pub use assembling::{assembled, is_attached, library_name, meta_text};
pub use filled::{Filled, add_bytes, add_child, add_parts, fill, leave_open};
pub use levels::element_level;
pub use page::{Page, page_on};
pub use parts::{Parts, shared_text};
