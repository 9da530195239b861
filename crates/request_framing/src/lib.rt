//! What of the bytes that came on a socket is given as a request, what of them waits, and the limits on both.
//!
//! No socket stands here. `Waiting` takes the pieces that were read and gives one request at a time, once it is there as a whole, as
//! a `Parcel`; where requests end it asks a `Framing`.
#![tactic(auto)]

mod bytes;
mod framing;
mod limits;
mod parcel;
mod waiting;

pub use bytes::Bytes;
pub use framing::{Extent, Framing};
pub use limits::{
    BODY_BYTES_A_SECOND, GATHERED_BYTES, HEAD_BYTES, HELD_BYTES, IDLE_SECONDS, LINGER_BYTES,
    LINGER_SECONDS, PASSED_BYTES, PASSED_SOCKETS, PATIENCE_MILLIS, REPLY_SECONDS, REQUEST_SECONDS,
    REST_MILLIS, SOCKETS, Stage, is_over,
};
pub use parcel::Parcel;
pub use waiting::{Came, Waiting};
