//! Pages put together from what is kept: each part of a page is looked for, and where it isn't found it is built and kept.
#![tactic(auto)]

mod compact;
mod filling;
mod frames;
mod joining;
mod keeping;
mod looking;
mod page;
mod pieces;
mod places;
mod whole;

pub use filling::some_fragment;
pub use frames::some_frame;
pub use joining::Child;
pub use looking::Seen;
pub use page::{Page, page_of, render_page, render_page_for};
pub use pieces::Pieces;
pub use whole::look_for_target;
