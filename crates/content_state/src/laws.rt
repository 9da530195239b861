//! Laws of the definitions of routes, which the contracts of empty functions state.
ghost use Rattle.content_state.specs.There.{RoutesLeadThere};

/// What a path leads to is there: where it leads to anything, it leads to a row that is there, or to
/// the login form.
pub fn routes_lead_there()
    ensures { RoutesLeadThere }
{}
