//! The laws of verdicts, which contracts of empty functions state.
ghost use Rattle.site_commands.specs.Right.{VerdictsKeepValid};
ghost use Rattle.edit_laws.specs.Viewers.{ViewersAreThere};

/// Every accepted edit of a right command bears the number of its pass, writes to distinct cells, and leaves the state
/// valid, on every valid state and for each viewer of it.
pub fn verdicts_keep_valid()
    ensures { VerdictsKeepValid }
{}

/// On a valid state the viewer whom a cookie names, at any moment, is nobody or a user who is there.
pub fn viewers_are_there()
    ensures { ViewersAreThere }
{}
