//! Cache contexts: the values by which pages vary, and which contexts are left out beside others that say more.
#![tactic(auto)]

mod context_value;
mod laws;
mod optimising;
mod valuing;

pub use context_value::{AnyValue, ContextValue};
pub use laws::left_out_contexts_stay;
pub use optimising::optimise;
pub use valuing::{value, values};
