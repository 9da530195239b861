//! Who takes part in a rehearsal.
ghost use Rattle.std.specs.Prelude.{◌≡◌, IfOk};
ghost use Rattle.element_entries.specs.Keys.{contexts_in, declared_by};
ghost use Rattle.site_rehearsal.specs.Seats.{first_of, key_by};

use cache_entries::{Bin, Entry, Key, Subject};
use cacheability::Context;
use content_state::{Ask, State, Viewer};
use element_entries::{Declared, FirstContexts, Reader, declared_by, first_contexts, key_of};
use site_access::Account;
use std::alloc::{AllocError, Global};
use std::marker::Model;
use std::sync::Arc;

/// What a requester built last: on which state, for whom, who asked for what, and what is kept of it in which bin.
#[derive(Drop)]
pub(crate) struct Draft {
    pub(crate) state: Arc<State>,
    pub(crate) viewer: Viewer,
    pub(crate) ask: Ask,
    pub(crate) bin: Bin,
    pub(crate) subject: Subject,
    pub(crate) entry: Arc<Entry>,
}

impl Model for Draft {
    ghost use Rattle.std.specs.Arc.{arc_value};
    ghost use Rattle.site_rehearsal.specs.Seats.{Draft as DraftValue};

    ghost Value = { DraftValue };

    ghost view = { λ d. record { state = arc_value d.state; viewer = d.viewer; ask = d.ask; bin = d.bin; subject = d.subject; entry = arc_value d.entry } };
}

impl Draft {
    /// What is declared by what is kept, on the state that it was built on.
    pub(crate) fn declared(&self) -> Declared
        ensures { result ≡ declared_by self.now.state.rows self.now.subject }
    {
        declared_by(&self.state, &self.subject)
    }

    /// The contexts of its first key.
    pub(crate) fn first(&self) -> FirstContexts
        ensures { contexts_in result ≡ first_of self.now }
    {
        first_contexts(self.declared())
    }

    /// The key of what is kept, with the values that these contexts had when it was built. `Err` only where memory is wanting.
    pub(crate) fn key(&self, alloc: Global, contexts: &[Context]) -> Result<Key, AllocError>
        ensures { IfOk result (λ key. key ≡ key_by self.now contexts.now) }
    {
        let account = Account::new(alloc, &self.state, &self.viewer)?;
        let reader = Reader::new(&self.state, &account, &self.ask, self.entry.made_moment);
        key_of(alloc, &reader, &self.subject, contexts)
    }
}

/// A requester's state, and what it built last.
#[derive(Drop)]
pub(crate) struct Seat {
    pub(crate) state: Arc<State>,
    pub(crate) built: Option<Draft>,
}

impl Model for Seat {
    ghost use Rattle.std.specs.Arc.{arc_value};
    ghost use Rattle.site_rehearsal.specs.Seats.{Seat as SeatValue};

    ghost Value = { SeatValue };

    ghost view = { λ s. record { state = arc_value s.state; built = s.built } };
}
