//! What a drill works on, made from a number: the rows of a site, and requests to it.
#![tactic(auto)]

mod asked;
mod draws;
mod number;
mod site;
mod words;

pub use asked::{Requests, requests_after};
pub use draws::Draws;
pub use number::number_of;
pub use site::{SiteRows, site_rows};
