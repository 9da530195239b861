//! Edits that are shared.

use content_state::{Commit, State};
use std::marker::Model;
use std::sync::Arc;

/// An accepted edit that several may share, which contracts see as the edit.
pub(crate) struct SharedEdit {
    pub(crate) commit: Arc<Commit>,
}

impl Drop for SharedEdit {
    fn drop(self) {
        let SharedEdit { commit: _ } = self;
    }
}

impl Model for SharedEdit {
    ghost use Rattle.std.specs.Arc.{arc_value};
    ghost use Rattle.content_state.specs.declared.commit.Commit.{Commit as CommitValue};

    ghost Value = { CommitValue };

    ghost view = { λ e. arc_value e.commit };
}

/// An accepted edit, and the state that it makes.
#[derive(Drop)]
pub(crate) struct Made {
    pub(crate) commit: Arc<Commit>,
    pub(crate) state: Arc<State>,
}

impl Model for Made {
    ghost use Rattle.std.specs.Arc.{arc_value};
    ghost use Rattle.site_hall.specs.Log.{Made as MadeValue};

    ghost Value = { MadeValue };

    ghost view = { λ m. record { commit = arc_value m.commit; state = arc_value m.state } };
}
