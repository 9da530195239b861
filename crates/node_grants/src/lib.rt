//! Who may do what to a node by its access records: the records of a node, the grants of a viewer, and whether one
//! of the records names one of the grants.
#![tactic(auto)]

mod grants;
mod naming;
mod records;

pub use grants::grants_of;
pub use naming::{granted, granted_to};
pub use records::records_of;
