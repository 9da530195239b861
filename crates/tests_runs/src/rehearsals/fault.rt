//! What is wrong with a case.

use std::alloc::{AllocError, AllocFailed};

/// Why a case isn't run: what can't be read of it, or that memory is short.
#[derive(Clone, Copy)]
pub enum Fault {
    Body,
    Capacities,
    Capacity,
    Context,
    Edit,
    Element,
    Moment,
    Name,
    NoSite,
    Number,
    Rows,
    Tag,
    Turn,
    Unset,
    OutOfMemory,
}

/// What is told of a fault; nothing where memory is short.
pub fn told_fault(fault: Fault) -> Option<&'static str> {
    match fault {
        Fault::Body => Some("a body is no object"),
        Fault::Capacities => Some("three capacities are wanted"),
        Fault::Capacity => Some("a capacity is 0"),
        Fault::Context => Some("no such context"),
        Fault::Edit => Some("no such edit"),
        Fault::Element => Some("no such element"),
        Fault::Moment => Some("a moment can't be read"),
        Fault::Name => Some("a name can't be read"),
        Fault::NoSite => Some("the rows are no site"),
        Fault::Number => Some("a number can't be read"),
        Fault::Rows => Some("the rows can't be read"),
        Fault::Tag => Some("no such tag"),
        Fault::Turn => Some("no such turn"),
        Fault::Unset => Some("no site is set"),
        Fault::OutOfMemory => None,
    }
}

impl From<AllocError> for Fault {
    fn from(_wanting: AllocError) -> Fault {
        Fault::OutOfMemory
    }
}

impl<T: Drop> From<AllocFailed<T>> for Fault {
    fn from(_wanting: AllocFailed<T>) -> Fault {
        Fault::OutOfMemory
    }
}
