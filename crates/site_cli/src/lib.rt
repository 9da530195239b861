//! What the program `site` does: what it is asked by its words, and the places that it works at.
#![tactic(auto)]

mod drilling;
mod jobs;
mod load;
mod run;
mod serving;
mod system;
mod words;

pub use run::{refuse_words, run_job, run_site};
pub use serve_store::Serving;
pub use site_alone::{alone_with, rows_of, starter_is_valid};
pub use site_places::{
    MemoryFile, MemoryPlace, MemoryPort, MemoryStore, NoDevice, Place, SystemPlace,
};
pub use system::run_system;
pub use words::{Job, WordFault, WordsFault, command_words, read_words, words_fault, words_of};
