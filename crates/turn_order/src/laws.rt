//! The laws of many steps, which contracts of empty functions state.
ghost use Rattle.std.specs.Prelude.{Option};
ghost use Rattle.turn_rule.specs.declared.notes.HallPart.{HallPart};
ghost use Rattle.turn_rule.specs.declared.notes.DeskNote.{DeskNote};
ghost use Rattle.turn_order.specs.Bins.{BinsStay};
ghost use Rattle.turn_order.specs.Order.{LogsOnlyGrow, NumbersNeverFall, StepsAreMade};

use atomic_table::Play;
use turn_laws::Slot;
use turn_rule::Note;

/// What a law allows is made so: the steps of which the other two laws speak are those that the table makes.
pub fn steps_are_made<S, L: Slot<S>, P: Play<S, Note>>()
    ensures { StepsAreMade L.noted L.noted_desk P.then }
{}

/// Of two tables, of which the later came from the earlier by any number of steps of any seats: whoever has the hall out in the later
/// finds all that any pass had seen in the earlier.
pub fn numbers_never_fall<S, L: Slot<S>>()
    ensures { NumbersNeverFall L.noted L.noted_desk }
{}

/// Of any two tables since the site was opened, of which the later came from the earlier by any number of steps: the log that the hall
/// had in the earlier is a front of the one that it has in the later, in its slot or with whoever has it out.
pub fn logs_only_grow<S, L: Slot<S>>()
    ensures { LogsOnlyGrow L.noted L.noted_desk }
{}

/// Of any two tables, of which the later came from the earlier by any number of steps that leave the bins, as each kind of step does but
/// a turn that is counted: the hall has the bins in the later that it had in the earlier.
pub fn bins_stay<S, L: Slot<S>>()
    ensures { BinsStay L.noted L.noted_desk }
{}
