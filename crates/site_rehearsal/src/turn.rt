//! What requesters do, and what is answered.

use cache_entries::{Bin, Found, Key};
use content_rows::Text;
use content_state::Ask;
use render_array::Element;
use site_commands::{Answer, Command};

/// A turn of a requester.
#[derive(Drop)]
pub struct Turn {
    pub requester: u32,
    pub act: Act,
}

/// What a requester does, who is on a state of its own: the one of its last snapshot or accepted edit, or the one that was
/// loaded.
#[derive(Drop)]
pub enum Act {
    /// It goes to the newest state.
    Snapshot,
    /// It looks for what is kept of pages, to show it at a moment.
    Look {
        bin: Bin,
        key: Key,
        ask: Ask,
        now: u64,
    },
    /// It builds an element on its state, at a moment.
    Build {
        element: Element,
        ask: Ask,
        now: u64,
    },
    /// It keeps what it built last.
    Keep,
    /// It makes an edit, at a moment.
    Commit {
        command: Command,
        csrf: Option<Text>,
        ask: Ask,
        now: u64,
    },
}

/// The reply to an act of a requester.
#[derive(Drop)]
pub enum Reply {
    /// The number of the newest state.
    Snapshot(u64),
    /// What was found, and whether it is an entry that may be shown on the requester's state.
    Look(Found, bool),
    /// The text of what was built.
    Build(Text),
    /// Whether something was kept.
    Keep(bool),
    /// What became of an edit.
    Commit(Answer),
}
