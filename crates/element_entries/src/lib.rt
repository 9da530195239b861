//! What is kept of elements: the keys that they are looked for by, whether what is found may be shown, and the entries that
//! are made of what was put together.
#![tactic(auto)]

mod finding;
mod first;
mod keeping;
mod keys;
mod laws;
mod leaving;
mod making;
mod reader;
mod standing;

pub use finding::{if_fresh, is_fresh};
pub use first::{Declared, FirstContexts, declared_by, first_contexts};
pub use keeping::{may_keep, redirect_to};
pub use keys::{duplicate_subject, first_key, key_beside, key_of, shared_values, values_for};
pub use laws::entries_are_made_on_states;
pub use making::{Joined, entry_of};
pub use reader::Reader;
pub use standing::Standing;
