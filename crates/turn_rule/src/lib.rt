//! What callers in many threads know of one hall that they share, and of its desk, and the rule that holds between any two
//! of their steps.
//!
//! The hall lies in one slot of a table, and the desk, which has the keeper, in another. A caller has a pass, which stands on
//! a seat of that table. For a turn, its seat takes the hall out; what it did is known to the others from the step on in
//! which the table's first word follows the hall's log. For an edit, its seat takes the desk out first and has it until all
//! is done, so that nobody waits for the keeper but who edits. The notes of the seats and the rule exist in proofs alone.
//! Nothing here runs; that each step keeps the rule is shown in `turn_laws`.
#![tactic(auto)]

mod notes;

pub use notes::{
    DeskNote, DeskPart, FounderNote, HallNote, HallPart, Loaded, Note, PassNote, TallyNote, Told,
};
