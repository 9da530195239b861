//! Pages whose parts are sent late: the page as it is kept for whoever views it first, and then what is lazy, part by part.
//! <https://www.drupal.org/docs/8/core/modules/big-pipe/overview>
#![tactic(auto)]

mod cutting;
mod first;
mod laws;
mod marking;
mod naming;
mod part;

pub use first::{Late, late_first};
pub use laws::{every_part_shows, late_is_page, places_are_lazy};
pub use part::{Part, late_part, template};
