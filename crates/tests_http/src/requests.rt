//! Texts of requests and heads of replies, by hand from RFC 9112 and the limits of the crate.

use cacheability::Name;
use http_heads::{
    CookieOut, HeadRoom, Media, Octets, Parsed, ReplyHead, Request, Version, is_reply_status,
    parse, parse_in, reply_head,
};
use std::alloc::{AllocError, Global};

/// What bytes begin with, without the request itself.
#[derive(Clone, Copy, PartialEq, Eq)]
enum Seen {
    Whole(usize),
    More,
    Refused(u16),
}

fn seen_of(parsed: &Parsed) -> Seen {
    match parsed {
        Parsed::Whole(_, size) => Seen::Whole(*size),
        Parsed::More => Seen::More,
        Parsed::Refused(code) => Seen::Refused(*code),
    }
}

fn seen_in(alloc: Global, bytes: &[u8], room: &mut HeadRoom) -> Result<Seen, AllocError> {
    let parsed = parse_in(alloc, bytes, room)?;
    let seen = seen_of(&parsed);
    drop(parsed);
    Ok(seen)
}

/// Adds a piece to bytes, so often.
fn add(bytes: &mut Vec<u8>, piece: &[u8], count: usize) -> Result<(), AllocError> {
    for _ in 0..count {
        bytes.extend_from_slice(piece)?;
    }
    Ok(())
}

/// A start, a piece repeated, and an end.
fn repeated(
    alloc: Global,
    start: &[u8],
    piece: &[u8],
    count: usize,
    end: &[u8],
) -> Result<Vec<u8>, AllocError> {
    let mut bytes = Vec::from_slice(alloc, start)?;
    add(&mut bytes, piece, count)?;
    add(&mut bytes, end, 1)?;
    Ok(bytes)
}

/// What bytes begin with.
const BEGINNINGS: [(&[u8], Seen); 22] = [
    // requests that are whole, and the bytes that each takes
    (b"GET /node/1 HTTP/1.1\r\nHost: a\r\n\r\n", Seen::Whole(33)),
    (b"GET / HTTP/1.0\n\n", Seen::Whole(16)),
    (b"\r\n\n\r\nGET / HTTP/1.1\r\n\r\n", Seen::Whole(23)),
    (
        b"GET / HTTP/1.1\r\n\r\nGET / HTTP/1.1\r\n\r\n",
        Seen::Whole(18),
    ),
    (
        b"GET / HTTP/1.1\r\nContent-Length: 0000000002\r\n\r\nab",
        Seen::Whole(48),
    ),
    // bytes that more may make a request of
    (b"", Seen::More),
    (b"GET /\xff\xfe", Seen::More),
    (
        b"GET / HTTP/1.1\r\nContent-Length: 1048576\r\n\r\n",
        Seen::More,
    ),
    (
        b"POST /node HTTP/1.1\r\nHost: a\r\nContent-Type: application/json\r\nContent-Length: 120\r\n\r\n",
        Seen::More,
    ),
    (
        b"POST /node HTTP/1.1\r\nHost: a\r\nContent-Type: application/json\r\nContent-Length: 120\r\n\r\n{\"fields\":{\"body\":\"Hi\"},\"title\":\"Nine\",\"",
        Seen::More,
    ),
    // bytes that nothing makes a request of
    (
        b"GET http://a/ HTTP/1.1\r\nHost: a\r\n\r\n",
        Seen::Refused(400),
    ),
    (b"\0\0", Seen::Refused(400)),
    (b"GET / HTTP/2.0\r\n", Seen::Refused(400)),
    (b"GET /\xff\xfe HTTP/1.1\r\n\r\n", Seen::Refused(400)),
    // lengths of bodies that are ill-formed, given twice or too great
    (
        b"GET / HTTP/1.1\r\nContent-Length: 1\r\ncontent-length: 1\r\n\r\n",
        Seen::Refused(400),
    ),
    (
        b"GET / HTTP/1.1\r\nContent-Length: 1048577\r\n\r\n",
        Seen::Refused(413),
    ),
    (
        b"GET x HTTP/1.1\r\nContent-Length: 1048577\r\n\r\n",
        Seen::Refused(413),
    ),
    (
        b"GET / HTTP/1.1\r\nContent-Length: 9999999999\r\n\r\n",
        Seen::Refused(413),
    ),
    (
        b"GET / HTTP/1.1\r\nContent-Length: 00000000002\r\n\r\n",
        Seen::Refused(400),
    ),
    (
        b"GET / HTTP/1.1\r\nContent-Length: +2\r\n\r\n",
        Seen::Refused(400),
    ),
    (
        b"GET / HTTP/1.1\r\nContent-Length:\r\n\r\n",
        Seen::Refused(400),
    ),
    (
        b"POST / HTTP/1.1\r\nTransfer-Encoding: chunked\r\nContent-Length: x\r\n\r\n",
        Seen::Refused(501),
    ),
];

#[test]
fn beginnings(rt: HostRuntime) {
    let mut room = HeadRoom::new(rt.alloc()).expect(&rt, "memory");
    for (bytes, seen) in &BEGINNINGS {
        assert!(rt; seen_in(rt.alloc(), bytes, &mut room) == Ok(*seen));
    }
}

const LINE: &[u8] = b"GET / HTTP/1.1\r\n";

const FIELD: &[u8] = b"GET / HTTP/1.1\r\nA: ";

/// A start, a piece and how often, an end, and what these begin with.
const LIMITS: [(&[u8], &[u8], usize, &[u8], Seen); 8] = [
    (LINE, b"A:\n", 64, b"\r\n", Seen::Whole(210)),
    (LINE, b"A:\n", 65, b"\r\n", Seen::Refused(431)),
    (
        LINE,
        b"A:\n",
        65,
        b"Transfer-Encoding: b\r\n\r\n",
        Seen::Refused(431),
    ),
    (FIELD, b"b", 16_361, b"\r\n\r\n", Seen::Whole(16_384)),
    (FIELD, b"b", 16_362, b"\r\n\r\n", Seen::Refused(431)),
    (FIELD, b"b", 16_364, b"", Seen::More),
    (FIELD, b"b", 16_365, b"", Seen::Refused(431)),
    (b"GET /", b"\xff", 16_379, b" ", Seen::Refused(431)),
];

#[test]
fn limits(rt: HostRuntime) {
    let mut room = HeadRoom::new(rt.alloc()).expect(&rt, "memory");
    for (start, piece, count, end, seen) in &LIMITS {
        let bytes = repeated(rt.alloc(), start, piece, *count, end).expect(&rt, "memory");
        assert!(rt; seen_in(rt.alloc(), &bytes, &mut room) == Ok(*seen));
    }
}

const CUT: &[u8] =
    b"POST /user/logout HTTP/1.1\r\nHost: a\r\nContent-Length: 4\r\nCookie: SESS=abc\r\n\r\nwxyz";

#[test]
fn every_cutting_of_a_request(rt: HostRuntime) {
    let mut room = HeadRoom::new(rt.alloc()).expect(&rt, "memory");
    assert!(rt; CUT.len() == 80);
    for at in 0..80 {
        let bytes = CUT.get(..at).unwrap_or(CUT);
        assert!(rt; seen_in(rt.alloc(), bytes, &mut room) == Ok(Seen::More));
    }
    assert!(rt; seen_in(rt.alloc(), CUT, &mut room) == Ok(Seen::Whole(80)));
}

/// The whole request that was found, and its length.
fn request_in(parsed: &Parsed) -> Option<(&Request, usize)> {
    match parsed {
        Parsed::Whole(request, size) => Some((request, *size)),
        Parsed::More | Parsed::Refused(_) => None,
    }
}

/// Whether a field is there and is that.
fn is_there(field: &Option<Octets>, want: &[u8]) -> bool {
    match field {
        Some(text) => text.as_slice() == want,
        None => false,
    }
}

/// Whether a request has the parts of the one of the test.
fn has_parts(request: &Request) -> bool {
    request.method.as_slice() == b"PATCH".as_slice()
        && request.target.as_slice() == b"/a%20b?c=%41&d?".as_slice()
        && request.path.as_slice() == b"/a b".as_slice()
        && request.query.as_slice() == b"c=%41&d?".as_slice()
        && request.version == Version::Http11
        && !request.closes
        && is_there(&request.content_type, b"text/plain")
        && is_there(&request.csrf, b"t1")
        && request.session.is_none()
        && request.body.as_slice() == b"hi".as_slice()
}

/// Whether bytes begin with that request, and more bytes follow it, so many.
fn begin_with_it(alloc: Global, bytes: &[u8], more: usize) -> Result<bool, AllocError> {
    let parsed = parse(alloc, bytes)?;
    Ok(match request_in(&parsed) {
        Some((request, size)) => size.saturating_add(more) == bytes.len() && has_parts(request),
        None => false,
    })
}

const PARTS: &[u8] =
    b"PATCH /a%20b?c=%41&d? HTTP/1.1\r\nContent-Type: \t text/plain \r\ncontent-type: x\r\nX-CSRF-Token: t1\r\nx-csrf-token: t2\r\nContent-Length: 2\r\n\r\nhi and more";

#[test]
fn the_parts_of_a_request(rt: HostRuntime) {
    assert!(rt; begin_with_it(rt.alloc(), PARTS, 9) == Ok(true));
    let text = Octets::copied(rt.alloc(), b"hi").expect(&rt, "memory");
    assert!(rt; text.into_vec().as_slice() == b"hi".as_slice());
}

/// Whether a request for `/` with this version and these fields closes or not, and has this session, empty for none.
fn closes_with(
    alloc: Global,
    fields: &[u8],
    closes: bool,
    session: &[u8],
) -> Result<bool, AllocError> {
    let mut bytes = Vec::from_slice(alloc, b"GET / HTTP/")?;
    bytes.extend_from_slice(fields)?;
    bytes.extend_from_slice(b"\r\n")?;
    let parsed = parse(alloc, &bytes)?;
    Ok(match request_in(&parsed) {
        Some((request, _)) => request.closes == closes && is_session(&request.session, session),
        None => false,
    })
}

/// Whether a session is that one, empty for none.
fn is_session(found: &Option<Name>, session: &[u8]) -> bool {
    match found {
        Some(name) => name.as_bytes() == session,
        None => session.is_empty(),
    }
}

/// The version and the fields; whether the request closes; the session, empty for none.
const FIELDS: [(&[u8], bool, &[u8]); 17] = [
    (b"1.1\r\n", false, b""),
    (b"1.0\r\n", true, b""),
    (b"1.1\r\nConnection: keep-alive, Close\r\n", true, b""),
    (
        b"1.1\r\nconnection: keep-alive\r\nCONNECTION:close\r\n",
        true,
        b"",
    ),
    (b"1.1\r\nConnection: closed, un close\r\n", false, b""),
    (b"1.1\r\nCookie: SESS=abc\r\n", false, b"abc"),
    (b"1.1\r\ncookie: a=b; SESS=abc\r\n", false, b"abc"),
    (
        b"1.1\r\nCookie: a=b;\tSESS=abc \t;SESS=x\r\n",
        false,
        b"abc",
    ),
    (b"1.1\r\nCookie: SESS=ABC; SESS=abc\r\n", false, b""),
    (b"1.1\r\nCookie: SESS=-\r\nCookie: SESS=abc\r\n", false, b""),
    (b"1.1\r\nCookie: a=b\r\nCookie: SESS=abc\r\n", false, b"abc"),
    (b"1.1\r\nCookie: sess=abc; SESSION=abc\r\n", false, b""),
    (b"1.1\r\nCookie: SESS =abc\r\n", false, b""),
    (b"1.1\r\nCookie: SESS=\r\n", false, b""),
    (b"1.1\r\nX-Cookie: SESS=abc\r\n", false, b""),
    (b"1.1\r\nX-Late: 1\r\n", true, b""),
    (b"1.1\r\nX-Late: 0\r\n", false, b""),
];

#[test]
fn closing_and_sessions(rt: HostRuntime) {
    for (fields, closes, session) in &FIELDS {
        assert!(rt; closes_with(rt.alloc(), fields, *closes, session) == Ok(true));
    }
}

/// Whether the request that bytes begin with is one whose parts are sent late, or isn't; one that is asks to close.
fn is_late_or_not(alloc: Global, bytes: &[u8], late: bool) -> Result<bool, AllocError> {
    let parsed = parse(alloc, bytes)?;
    Ok(match request_in(&parsed) {
        Some((request, _)) => request.late == late && (request.closes || !late),
        None => false,
    })
}

/// A request, and whether its parts are sent late.
const LATE: [(&[u8], bool); 9] = [
    (b"GET / HTTP/1.1\r\nX-Late: 1\r\n\r\n", true),
    (b"GET / HTTP/1.0\r\nx-late:1\r\n\r\n", true),
    (b"GET / HTTP/1.1\r\nX-LATE: \t1 \r\n\r\n", true),
    (b"GET / HTTP/1.1\r\nX-Late: 0\r\nX-Late: 1\r\n\r\n", true),
    (b"GET / HTTP/1.1\r\nX-Late: 11\r\n\r\n", false),
    (b"GET / HTTP/1.1\r\nX-Late:\r\n\r\n", false),
    (b"GET / HTTP/1.1\r\nLate: 1\r\n\r\n", false),
    (b"POST / HTTP/1.1\r\nX-Late: 1\r\n\r\n", false),
    (b"get / HTTP/1.1\r\nX-Late: 1\r\n\r\n", false),
];

#[test]
fn parts_sent_late(rt: HostRuntime) {
    for (bytes, late) in &LATE {
        assert!(rt; is_late_or_not(rt.alloc(), bytes, *late) == Ok(true));
    }
}

/// The head of a reply in JSON with no more fields.
fn plain(status: u16) -> ReplyHead {
    ReplyHead {
        status,
        media: Media::Json,
        length: None,
        location: None,
        cookie: CookieOut::Nothing,
        allow: false,
        state: None,
        close: false,
    }
}

/// A head, after what stood there before; `Err` also where its status is none that replies have.
fn written(alloc: Global, head: &ReplyHead) -> Result<Vec<u8>, AllocError> {
    if !is_reply_status(head.status) {
        return Err(AllocError);
    }
    let mut out = Vec::from_slice(alloc, b"before")?;
    reply_head(alloc, &mut out, head)?;
    Ok(out)
}

/// Whether a head is these bytes.
fn is_written(alloc: Global, head: &ReplyHead, want: &[u8]) -> Result<bool, AllocError> {
    let out = written(alloc, head)?;
    Ok(match out.as_slice().strip_prefix(b"before") {
        Some(written) => written == want,
        None => false,
    })
}

#[test]
fn heads_of_replies(rt: HostRuntime) {
    let token = Name::new(b"00000000000000030000000000000004").expect(&rt, "a name");
    let table: [(ReplyHead, &[u8]); 7] = [
        (
            ReplyHead {
                media: Media::Html,
                length: Some(258),
                state: Some(0),
                ..plain(200)
            },
            b"HTTP/1.1 200 OK\r\nContent-Type: text/html; charset=UTF-8\r\nContent-Length: 258\r\nX-Site-State: 0\r\n\r\n",
        ),
        (
            ReplyHead {
                media: Media::Html,
                length: Some(0),
                location: Some(2),
                cookie: CookieOut::Set(token),
                state: Some(18_446_744_073_709_551_615),
                ..plain(303)
            },
            b"HTTP/1.1 303 See Other\r\nContent-Type: text/html; charset=UTF-8\r\nContent-Length: 0\r\nLocation: /user/2\r\nSet-Cookie: SESS=00000000000000030000000000000004; Path=/; HttpOnly; SameSite=Lax\r\nX-Site-State: 18446744073709551615\r\n\r\n",
        ),
        (
            ReplyHead {
                length: Some(110),
                state: Some(0),
                ..plain(200)
            },
            b"HTTP/1.1 200 OK\r\nContent-Type: application/json\r\nContent-Length: 110\r\nX-Site-State: 0\r\n\r\n",
        ),
        (
            ReplyHead {
                length: Some(67),
                state: Some(4),
                close: true,
                ..plain(403)
            },
            b"HTTP/1.1 403 Forbidden\r\nContent-Type: application/json\r\nContent-Length: 67\r\nX-Site-State: 4\r\nConnection: close\r\n\r\n",
        ),
        (
            ReplyHead {
                length: Some(11),
                cookie: CookieOut::Clear,
                state: Some(7),
                ..plain(200)
            },
            b"HTTP/1.1 200 OK\r\nContent-Type: application/json\r\nContent-Length: 11\r\nSet-Cookie: SESS=; Path=/; Max-Age=0\r\nX-Site-State: 7\r\n\r\n",
        ),
        (
            ReplyHead {
                length: Some(17),
                allow: true,
                state: Some(1),
                close: true,
                ..plain(405)
            },
            b"HTTP/1.1 405 Method Not Allowed\r\nContent-Type: application/json\r\nContent-Length: 17\r\nAllow: GET, POST, PATCH, DELETE\r\nX-Site-State: 1\r\nConnection: close\r\n\r\n",
        ),
        (
            plain(503),
            b"HTTP/1.1 503 Service Unavailable\r\nContent-Type: application/json\r\n\r\n",
        ),
    ];
    for (head, want) in &table {
        assert!(rt; is_written(rt.alloc(), head, want) == Ok(true));
    }
}

/// Whether this phrase follows a status in a head.
fn has_phrase(alloc: Global, status: u16, phrase: &[u8]) -> Result<bool, AllocError> {
    let out = written(alloc, &plain(status))?;
    let end: &[u8] = b"\r\nContent-Type: application/json\r\n\r\n";
    let tail = out.as_slice().split_at(19.min(out.len())).1;
    Ok(match tail.strip_suffix(end) {
        Some(between) => between == phrase,
        None => false,
    })
}

const PHRASES: [(u16, &[u8]); 15] = [
    (200, b"OK"),
    (201, b"Created"),
    (303, b"See Other"),
    (400, b"Bad Request"),
    (403, b"Forbidden"),
    (404, b"Not Found"),
    (405, b"Method Not Allowed"),
    (409, b"Conflict"),
    (413, b"Payload Too Large"),
    (415, b"Unsupported Media Type"),
    (422, b"Unprocessable Entity"),
    (431, b"Request Header Fields Too Large"),
    (501, b"Not Implemented"),
    (503, b"Service Unavailable"),
    (507, b"Insufficient Storage"),
];

#[test]
fn phrases(rt: HostRuntime) {
    for (status, phrase) in &PHRASES {
        assert!(rt; has_phrase(rt.alloc(), *status, phrase) == Ok(true));
    }
    assert!(rt; !is_reply_status(204));
}
