//! What all readers of one viewer on one state have in common.
ghost use Rattle.std.specs.Prelude.{IfOk};
ghost use Rattle.element_entries.specs.Standing.{IsStandingOf};

use crate::first::{Declared, first_contexts};
use cache_contexts::{ContextValue, values};
use content_rows::Items;
use content_state::{Ask, State, Viewer};
use site_access::{Account, Shared};
use std::alloc::{AllocError, Global};

/// A viewer's account on a state, and the values that the required contexts have there for the viewer, whatever is asked for and
/// whenever. It is made once for all readers of the viewer on the state.
#[derive(Drop)]
pub struct Standing {
    pub account: Account,
    pub required_values: Shared<Items<ContextValue>>,
}

impl Standing {
    /// What all readers of a viewer on a state have in common, whatever they ask for: this is one thing that is asked for. `Err` only
    /// where memory is wanting.
    pub fn new(
        alloc: Global,
        state: &State,
        viewer: &Viewer,
        ask: &Ask,
    ) -> Result<Standing, AllocError>
        ensures { IfOk result (λ standing. IsStandingOf state.now viewer.now standing) }
    {
        let account = Account::new(alloc, state, viewer)?;
        let required = first_contexts(Declared::Nothing);
        let found = values(alloc, state, &account, ask, required.as_slice())?;
        let required_values = Shared::new(alloc, found)?;
        Ok(Standing {
            account,
            required_values,
        })
    }
}
