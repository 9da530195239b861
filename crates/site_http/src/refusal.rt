//! The texts that are sent where there is no state to answer from: refusals of a connection, and want of memory.
ghost use Rattle.std.specs.Prelude.{◌≡◌, ◌≤◌, OnOk, OnErr};
ghost use Rattle.site_io.specs.Told.{after, AddsFront, Rose};
ghost use Rattle.site_http.specs.Fixed.{bad_request_reply, body_too_large_reply, head_too_large_reply, no_coding_reply, memory_closing_reply, memory_reply};
ghost use Rattle.site_http.specs.Reply.{refusal_text, memory_text};

use site_io::{Failed, Sink, write_whole};

/// What is no request.
#[tactic(auto, unfolding(crate::specs::Fixed::bad_request_reply))]
fn bad_request() -> &'static [u8]
    ensures { result.now ≡ bad_request_reply }
{
    b"HTTP/1.1 400 Bad Request\r\nContent-Type: application/json\r\nContent-Length: 22\r\nConnection: close\r\n\r\n{\"code\":\"bad-request\"}"
}

/// A body that is too large.
#[tactic(auto, unfolding(crate::specs::Fixed::body_too_large_reply))]
fn body_too_large() -> &'static [u8]
    ensures { result.now ≡ body_too_large_reply }
{
    b"HTTP/1.1 413 Payload Too Large\r\nContent-Type: application/json\r\nContent-Length: 25\r\nConnection: close\r\n\r\n{\"code\":\"body-too-large\"}"
}

/// A head that is too large.
#[tactic(auto, unfolding(crate::specs::Fixed::head_too_large_reply))]
fn head_too_large() -> &'static [u8]
    ensures { result.now ≡ head_too_large_reply }
{
    b"HTTP/1.1 431 Request Header Fields Too Large\r\nContent-Type: application/json\r\nContent-Length: 25\r\nConnection: close\r\n\r\n{\"code\":\"head-too-large\"}"
}

/// A body in a transfer coding.
#[tactic(auto, unfolding(crate::specs::Fixed::no_coding_reply))]
fn no_coding() -> &'static [u8]
    ensures { result.now ≡ no_coding_reply }
{
    b"HTTP/1.1 501 Not Implemented\r\nContent-Type: application/json\r\nContent-Length: 20\r\nConnection: close\r\n\r\n{\"code\":\"no-coding\"}"
}

/// Want of memory, where the connection closes.
#[tactic(auto, unfolding(crate::specs::Fixed::memory_closing_reply))]
fn memory_and_close() -> &'static [u8]
    ensures { result.now ≡ memory_closing_reply }
{
    b"HTTP/1.1 507 Insufficient Storage\r\nContent-Type: application/json\r\nContent-Length: 17\r\nConnection: close\r\n\r\n{\"code\":\"memory\"}"
}

/// Want of memory, where the connection goes on.
#[tactic(auto, unfolding(crate::specs::Fixed::memory_reply))]
fn memory_and_go_on() -> &'static [u8]
    ensures { result.now ≡ memory_reply }
{
    b"HTTP/1.1 507 Insufficient Storage\r\nContent-Type: application/json\r\nContent-Length: 17\r\n\r\n{\"code\":\"memory\"}"
}

/// The text that refuses a connection with a code: 413, 431, 501, or else 400.
#[tactic(auto, using(crate::proofs::Fixed::bad_request_is, crate::proofs::Fixed::body_too_large_is, crate::proofs::Fixed::head_too_large_is, crate::proofs::Fixed::no_coding_is))]
fn refusal(code: u16) -> &'static [u8]
    ensures { result.now ≡ refusal_text code }
{
    match code {
        413 => body_too_large(),
        431 => head_too_large(),
        501 => no_coding(),
        _ => bad_request(),
    }
}

/// The text of a reply where memory was wanting, for which none is needed.
#[tactic(auto, using(crate::proofs::Fixed::memory_closing_is, crate::proofs::Fixed::memory_is))]
pub fn memory_text(closing: bool) -> &'static [u8]
    ensures { result.now ≡ memory_text closing }
{
    if closing {
        memory_and_close()
    } else {
        memory_and_go_on()
    }
}

/// Writes the text that refuses a connection with a code, and hands on what the sink holds back of it.
#[tactic(auto, using(site_late::proofs::Joining::all_is_front))]
pub fn write_refusal<O: Sink>(sink: &mut O, code: u16) -> Result<(), Failed>
    ensures ok { OnOk result (O.written sink.new ≡ after (O.written sink.old) (refusal_text code)) }
    ensures failed { OnErr result (AddsFront (O.written sink.old) (O.written sink.new) (refusal_text code)) }
    ensures cause { OnErr result (Rose (O.faults sink.old) (O.faults sink.new)) }
    ensures steady { OnOk result (O.faults sink.new ≡ O.faults sink.old) }
{
    write_whole(sink, refusal(code))?;
    sink.flush()
}
