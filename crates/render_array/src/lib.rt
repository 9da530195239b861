//! What the elements of a page show: each is a plan of reads, and a builder writes what its plan shows on a canvas,
//! which keeps the tags, the contexts and the last moment of all that was read.
#![tactic(auto)]

mod blocks;
mod building;
mod comments;
mod element;
mod json;
mod json_listings;
mod json_nodes;
mod listings;
mod menus;
mod nodes;
mod pages;
mod submitted;
mod terms;

pub use building::{build, build_for};
pub use element::Element;
