//! What a file of cases has.

use std::alloc::AllocError;

/// A section: its head's first word, the rest of its head, and its text.
#[derive(Drop)]
pub struct Section {
    /// The number of its head's line, from 1.
    pub line: u64,
    pub word: Vec<u8>,
    pub rest: Vec<u8>,
    pub text: Vec<u8>,
}

/// A case: its name, and its sections in order.
#[derive(Drop)]
pub struct Case {
    pub name: Vec<u8>,
    pub sections: Vec<Section>,
}

/// Why a file of cases isn't read.
#[derive(Clone, Copy)]
pub enum Unread {
    /// The line of this number is wrong in this way.
    Line(u64, &'static str),
    OutOfMemory,
}

impl From<AllocError> for Unread {
    fn from(_wanting: AllocError) -> Unread {
        Unread::OutOfMemory
    }
}
