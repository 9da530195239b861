//! Kinds of turns.
ghost use Rattle.std.specs.Prelude.{◌≡◌, Bool, true, false};
ghost use Rattle.turn_rule.specs.Steps.{zeros};
ghost use Rattle.turn_rule.specs.declared.notes.TallyNote.{TallyNote};
ghost use Rattle.site_table.specs.Turns.{one_look, one_found, one_kept, counts_of_look, counts_of_keep};
ghost use Rattle.site_table.specs.Kinds.{counts_of};

use cache_entries::Found;
use std::alloc::AllocError;

/// What a turn counts that leaves log and pending edit as they were.
pub(crate) trait Count {
    ghost counts: { TallyNote };
}

/// A turn that counts nothing.
pub(crate) struct Nothing;

impl Count for Nothing {
    ghost counts = { zeros };
}

/// A look that found nothing.
pub(crate) struct Looks;

impl Count for Looks {
    ghost counts = { one_look };
}

/// A look that found something.
pub(crate) struct Finds;

impl Count for Finds {
    ghost counts = { one_found };
}

/// Something was kept.
pub(crate) struct Keeps;

impl Count for Keeps {
    ghost counts = { one_kept };
}

/// Whether a turn of a seat that has the desk hands an edit in.
pub trait Kind {
    ghost hands: { Bool };
}

/// A turn that hands nothing in.
pub struct Quiet;

impl Kind for Quiet {
    ghost hands = { false };
}

/// A turn that hands an edit in.
pub struct Hands;

impl Kind for Hands {
    ghost hands = { true };
}

/// What a turn did that left log and pending edit as they were.
#[derive(Clone, Copy)]
pub enum Deed {
    /// Nothing that is counted.
    Nothing,
    /// It looked for something, and found nothing.
    Looked,
    /// It found something.
    Found,
    /// It kept something.
    Kept,
}

/// What a look did, by its answer.
pub fn looked_by(answer: &Result<Found, AllocError>) -> Deed
    ensures { counts_of result ≡ counts_of_look answer.now }
{
    match answer {
        Ok(found) => match found {
            Found::Entry(_) | Found::Redirect(_) => Deed::Found,
            Found::Absent => Deed::Looked,
        },
        Err(_) => Deed::Nothing,
    }
}

/// What was done where something was to be kept, by the answer.
pub fn kept_by(answer: &Result<(), AllocError>) -> Deed
    ensures { counts_of result ≡ counts_of_keep answer.now }
{
    match answer {
        Ok(()) => Deed::Kept,
        Err(_) => Deed::Nothing,
    }
}
