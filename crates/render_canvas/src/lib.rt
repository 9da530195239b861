//! The canvas that the builders of elements write on: it shows bytes and leaves places open, attaches libraries, reads rows and
//! asks for access, and keeps the tags, the contexts and the last moment of all that was read.
#![tactic(auto)]

mod board;
mod built;
mod canvas;
mod deciding;
mod reading;
mod texts;

pub use built::Built;
pub use canvas::Canvas;
