//! Requests from the bytes of a connection, and the heads of replies: a profile of HTTP/1.1
//! (RFC 9110, RFC 9112) and of cookies (RFC 6265).
//!
//! `parse` says what bytes begin with, over the crate `httparse`; `reply_head` writes the head of
//! a reply. Neither reads nor writes anything but its arguments. `extent_in` says how far a request reaches.
#![tactic(auto)]

mod build;
mod extent;
mod fields;
mod find;
mod framing;
mod in_target;
mod octets;
mod parsed;
mod parsing;
mod reply;
mod request;
mod theorems;
mod values;

pub use extent::{Extent, extent_in};
pub use octets::Octets;
pub use parsed::Parsed;
pub use parsing::{HeadRoom, parse, parse_in};
pub use reply::{CookieOut, Media, ReplyHead, is_reply_status, reply_head};
pub use request::{Request, Version};
pub use theorems::{
    late_closes, more_is_short, parses_once, reads_once, reads_some, refused_stays, whole_stays,
    whole_takes,
};
