//! Each kind of step that callers take, who share a hall and its desk, keeps the rule of `turn_rule`: the laws, and the rule in
//! plain words.
#![tactic(auto)]

mod laws;

pub use laws::{
    Slot, desks_are_given_back, desks_are_taken_out, doors_are_marked, edits_are_forgotten,
    faults_are_told, gates_are_marked, halls_are_given_back, halls_are_taken_out,
    halls_stay_beside_seats, logs_are_followed, looks_are_counted, passes_are_drawn,
    passes_get_seats, passes_join_seats, passes_meet, sites_close, sites_open, tables_begin_fresh,
    the_rule_in_plain_words,
};
