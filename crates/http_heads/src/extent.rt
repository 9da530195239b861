//! How far what bytes begin with reaches, without a request that is made of them.
ghost use Rattle.std.specs.Prelude.{◌≡◌, ◌≤◌, ◌<◌, ◌*◌, ◌+◌, ◌^◌, length, take};
ghost use Rattle.httparse.specs.Grammar.{RequestHead, print_request};
ghost use Rattle.httparse.specs.Spans.{IsWithin};
ghost use Rattle.http_heads.specs.Extents.{Reaches, ReachesAt, Shows};
ghost use Rattle.http_heads.specs.Framing.{head_limit};
ghost use Rattle.http_heads.specs.Lines.{AreWithin, IsPartsOf};

use crate::find::{Found, find_head};
use crate::framing::judged;
use crate::parsing::{HeadRoom, first_bytes, is_long};
use httparse::spans::{HeaderSpan, RequestSpans};

/// How far what the bytes so far of a connection begin with reaches.
#[derive(Clone, Copy, Debug, PartialEq, Eq)]
pub enum Extent {
    /// A whole request of so many bytes, head and body, is there.
    Whole(usize),
    /// A part of a head, or nothing.
    Head,
    /// A whole head and less than the body that it announces: the request will have so many bytes at least.
    Body(usize),
    /// What is refused, whatever follows.
    Refused,
}

/// How far a whole head and the bytes after it reach.
fn extent_at(after: &[u8], window: &[u8], rows: &[HeaderSpan], head: &RequestSpans) -> Extent
    requires target { IsWithin (length window.now) head.now.path }
    requires rows { AreWithin window.now rows.now }
    requires room { head.now.len + length after.now < 2 ^ 64 }
    ensures { (h : RequestHead) → IsPartsOf window.now rows.now head.now h
        → head.now.len ≡ length (print_request h)
        → ReachesAt h after.now result }
{
    match judged(window, rows, head.path.of(window)) {
        Err(_) => Extent::Refused,
        Ok(wanted) => {
            if (after.len() as u64) < wanted {
                Extent::Body(head.len.saturating_add(wanted as usize))
            } else {
                Extent::Whole(head.len + wanted as usize)
            }
        }
    }
}

/// How far bytes reach, by their first ones and a row of spans that has room for the fields.
fn extent_of(bytes: &[u8], window: &[u8], spans: &mut [HeaderSpan]) -> Extent
    requires window { window.now ≡ take head_limit bytes.now }
    requires room { length window.now < 3 * length spans.old }
    ensures { Shows bytes.now result }
{
    match find_head(window, spans) {
        Found::Head(head) => {
            let after = bytes.split_at(head.len).1;
            extent_at(after, window, &spans[..head.headers], &head)
        }
        Found::Begun => {
            if is_long(bytes) {
                Extent::Refused
            } else {
                Extent::Head
            }
        }
        Found::Nothing => Extent::Refused,
    }
}

/// How far the bytes so far of a connection reach, with room that is lent. It takes no memory, and `parse_in` says the same of
/// these bytes: a whole request of that size exactly where it says one, and so of a part and of what is refused.
pub fn extent_in(bytes: &[u8], room: &mut HeadRoom) -> Extent
    ensures { Reaches bytes.now result }
{
    extent_of(bytes, first_bytes(bytes), room.spans.as_mut_slice())
}
