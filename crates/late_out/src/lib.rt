//! The marks of a page whose parts are sent after the rest, as Drupal's BigPipe does it, without its scripts.
//! <https://www.drupal.org/docs/8/core/modules/big-pipe/overview>
#![tactic(auto)]

mod marks;

pub use marks::{body_end, place_mark, template_end, template_start};
