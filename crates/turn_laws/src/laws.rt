//! The laws of the rule, which contracts of empty functions state.
ghost use Rattle.std.specs.Prelude.{Option};
ghost use Rattle.turn_rule.specs.declared.notes.HallPart.{HallPart};
ghost use Rattle.turn_rule.specs.declared.notes.DeskNote.{DeskNote};
ghost use Rattle.turn_laws.specs.Laws.{
  TablesBeginFresh,
  SitesOpen,
  HallsAreTakenOut,
  DesksAreTakenOut,
  GatesAreMarked,
  DoorsAreMarked,
  LooksAreCounted,
  LogsAreFollowed,
  EditsAreForgotten,
  FaultsAreTold,
  HallsAreGivenBack,
  DesksAreGivenBack,
  PassesAreDrawn,
  PassesMeet,
  PassesGetSeats,
  PassesJoinSeats,
  HallsStayAtSplits,
  HallsStayAtJoins,
  SitesClose,
  RuleInPlainWords,
  Leads,
};

/// What is noted of the values that lie in the slots of a table: the hall, where one lies there, and the desk.
pub trait Slot<S> {
    ghost noted: { S → Option HallPart };

    ghost noted_desk: { S → Option DeskNote };
}

/// A table with two empty slots keeps the rule before its first step.
pub fn tables_begin_fresh<S, L: Slot<S>>()
    ensures { TablesBeginFresh L.noted L.noted_desk }
{}

/// The first step opens the site with the hall and the desk that it announces.
pub fn sites_open<S, L: Slot<S>>()
    ensures { SitesOpen L.noted L.noted_desk }
{}

/// A seat takes the hall out, and all passes on it know it.
pub fn halls_are_taken_out<S, L: Slot<S>>()
    ensures { HallsAreTakenOut L.noted L.noted_desk (Leads L.noted L.noted_desk) }
{}

/// A seat takes the desk out, whose keeper stands for the log, and all passes on it know it.
pub fn desks_are_taken_out<S, L: Slot<S>>()
    ensures { DesksAreTakenOut L.noted L.noted_desk (Leads L.noted L.noted_desk) }
{}

/// A seat that waits for the hall marks the gate, so that whoever has the hall wakes one when it gives it back.
pub fn gates_are_marked<S, L: Slot<S>>()
    ensures { GatesAreMarked L.noted L.noted_desk (Leads L.noted L.noted_desk) }
{}

/// A seat that waits for the desk marks the door, so that whoever has the desk wakes one when it gives it back.
pub fn doors_are_marked<S, L: Slot<S>>()
    ensures { DoorsAreMarked L.noted L.noted_desk (Leads L.noted L.noted_desk) }
{}

/// A turn of a pass that leaves the log and the pending edit as they were is counted, whether the seat has the desk or not.
pub fn looks_are_counted<S, L: Slot<S>>()
    ensures { LooksAreCounted L.noted L.noted_desk (Leads L.noted L.noted_desk) }
{}

/// After a turn of a pass that has the desk the table's first word follows the log of the hall that lies in the seat's slot.
pub fn logs_are_followed<S, L: Slot<S>>()
    ensures { LogsAreFollowed L.noted L.noted_desk (Leads L.noted L.noted_desk) }
{}

/// The pending edit, which a pass that has the desk handed in last, is forgotten. That the keeper has kept nothing of it is
/// asked where the desk is given back.
pub fn edits_are_forgotten<S, L: Slot<S>>()
    ensures { EditsAreForgotten L.noted L.noted_desk (Leads L.noted L.noted_desk) }
{}

/// A pass that has the desk tells how often the keeper has failed.
pub fn faults_are_told<S, L: Slot<S>>()
    ensures { FaultsAreTold L.noted L.noted_desk (Leads L.noted L.noted_desk) }
{}

/// A seat gives the hall back.
pub fn halls_are_given_back<S, L: Slot<S>>()
    ensures { HallsAreGivenBack L.noted L.noted_desk (Leads L.noted L.noted_desk) }
{}

/// A seat gives the desk back, whose keeper stands for the log.
pub fn desks_are_given_back<S, L: Slot<S>>()
    ensures { DesksAreGivenBack L.noted L.noted_desk (Leads L.noted L.noted_desk) }
{}

/// The founder draws a new pass, with the next number.
pub fn passes_are_drawn<S, L: Slot<S>>()
    ensures { PassesAreDrawn L.noted L.noted_desk (Leads L.noted L.noted_desk) }
{}

/// Two passes on one seat tell each other what they have seen.
pub fn passes_meet<S, L: Slot<S>>()
    ensures { PassesMeet L.noted L.noted_desk (Leads L.noted L.noted_desk) }
{}

/// A pass goes to a new seat.
pub fn passes_get_seats<S, L: Slot<S>>()
    ensures { PassesGetSeats L.noted L.noted_desk }
{}

/// A pass comes to a seat.
pub fn passes_join_seats<S, L: Slot<S>>()
    ensures { PassesJoinSeats L.noted L.noted_desk }
{}

/// The hall stays where passes change their seats.
pub fn halls_stay_beside_seats<S, L: Slot<S>>()
    ensures split { HallsStayAtSplits L.noted L.noted_desk }
    ensures join { HallsStayAtJoins L.noted L.noted_desk }
{}

/// With all passes that were made on the founder's seat, and hall and desk out with it, what the hall counted is the sum of
/// what it was opened with and what the passes counted.
pub fn sites_close<S, L: Slot<S>>()
    ensures { SitesClose L.noted L.noted_desk }
{}

/// The rule in plain words: where the hall is, and where the desk; that each number is given once; that what a pass has seen
/// is a front of the log; and that the edits since the opening bear numbers that were given, those of a pass being of the
/// ones that it handed in, in that order.
pub fn the_rule_in_plain_words<S, L: Slot<S>>()
    ensures { RuleInPlainWords L.noted L.noted_desk }
{}
