//! The laws of edits that keep a state valid, which the contracts of empty functions state.
ghost use Rattle.valid_edits.specs.Fits.{KeepsValid, RemovalsKeepValid};

/// A valid state stays valid under an edit each of whose writes fits the rows that the writes before it leave.
pub fn fitting_edits_keep_valid()
    ensures { KeepsValid }
{}

/// A valid state stays valid under an edit that removes rows of which none has to be there, and none is named by a row that
/// stays.
pub fn removals_keep_valid()
    ensures { RemovalsKeepValid }
{}
