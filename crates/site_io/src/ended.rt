//! How a connection ended.

/// How a connection ended.
#[derive(Clone, Copy, Debug, PartialEq, Eq)]
pub enum Ended {
    /// The input ended between two requests, or before the first.
    Closed,

    /// The reply to a request that asked to close was written; one by HTTP/1.0 asks to.
    Asked,

    /// The 1,000th reply was written, to a request that didn't ask to close.
    Spent,

    /// The connection was refused with this status code, and that reply was written.
    Refused(u16),

    /// The input ended after this many bytes of a request, those of its head included.
    Truncated(u64),

    /// The source failed, and its count of faults rose.
    ReadFault,

    /// The sink failed, and its count of faults rose.
    WriteFault,

    /// Memory was wanting.
    OutOfMemory,
}
