//! Connections: requests in, replies out, each on the state whose number it carries.
#![tactic(auto)]

mod answer;
mod call;
mod connection;
mod desk;
mod known;
mod next;
mod recent;
mod refusal;
mod reply;
mod shown;
mod turn;
mod worker;

pub use connection::{connection_grows, requests_are_asks, serve_connection};
pub use desk::Desk;
pub use http_heads::{
    CookieOut, Media, Octets, Parsed, ReplyHead, Request, Version, is_reply_status, parse,
    reply_head,
};
pub use next::Inbox;
pub use recent::RecentReplies;
pub use site_late::{WriteFault, write_parts};
pub use turn::turn as serve_turn;
pub use worker::{Worked, work};
