//! What the statements of a store do to its two tables, by the contracts of a database: each text is understood, and what it
//! then writes or shows is said of the entries that the tables are told as.
#![tactic(auto)]
