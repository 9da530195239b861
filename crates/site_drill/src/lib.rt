//! A drill: a large valid input, made from a number, is answered in memory, and what came of it is told in seven lines.
#![tactic(auto)]

mod figures;
mod gate;
mod job;
mod replies;
mod served;
mod steady;

pub use figures::Figures;
pub use job::{DrillEnd, drill};
