//! Pages that are rendered before anybody asks for them, so that they are kept by then.
#![tactic(auto)]

mod asking;
mod warming;

pub use warming::{MOST_PAGES, warm};
