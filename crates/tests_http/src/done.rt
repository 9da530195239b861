//! Replies of accepted edits. Their texts were worked out by hand.

use cacheability::Name;
use edit_replies::done_text;
use site_commands::Done;

/// Whether this is the reply of what was done.
fn tells(done: &Done, number: u64, closing: bool, wanted: &[u8]) -> bool {
    let text = done_text(done, number, closing);
    text.as_slice() == wanted
}

/// What was done, the number of a state, whether the connection closes, and the reply.
const DONE: [(Done, u64, bool, &[u8]); 8] = [
    (
        Done::NodeCreated(9),
        1,
        false,
        b"HTTP/1.1 201 Created\r\nContent-Type: application/json\r\nContent-Length: 17\r\nX-Site-State: 1\r\n\r\n{\"nid\":9,\"vid\":1}",
    ),
    (
        Done::NodeChanged(1, 2),
        1,
        false,
        b"HTTP/1.1 200 OK\r\nContent-Type: application/json\r\nContent-Length: 17\r\nX-Site-State: 1\r\n\r\n{\"nid\":1,\"vid\":2}",
    ),
    (
        Done::NodeChanged(4_294_967_295, 4_294_967_295),
        18_446_744_073_709_551_615,
        true,
        b"HTTP/1.1 200 OK\r\nContent-Type: application/json\r\nContent-Length: 35\r\nX-Site-State: 18446744073709551615\r\nConnection: close\r\n\r\n{\"nid\":4294967295,\"vid\":4294967295}",
    ),
    (
        Done::TermCreated(3),
        0,
        true,
        b"HTTP/1.1 201 Created\r\nContent-Type: application/json\r\nContent-Length: 9\r\nX-Site-State: 0\r\nConnection: close\r\n\r\n{\"tid\":3}",
    ),
    (
        Done::UserCreated(2),
        1,
        false,
        b"HTTP/1.1 201 Created\r\nContent-Type: application/json\r\nContent-Length: 9\r\nX-Site-State: 1\r\n\r\n{\"uid\":2}",
    ),
    (
        Done::CommentCreated(12),
        4,
        false,
        b"HTTP/1.1 201 Created\r\nContent-Type: application/json\r\nContent-Length: 10\r\nX-Site-State: 4\r\n\r\n{\"cid\":12}",
    ),
    (
        Done::Saved,
        1,
        false,
        b"HTTP/1.1 200 OK\r\nContent-Type: application/json\r\nContent-Length: 11\r\nX-Site-State: 1\r\n\r\n{\"ok\":true}",
    ),
    (
        Done::LoggedOut,
        3,
        true,
        b"HTTP/1.1 200 OK\r\nContent-Type: application/json\r\nContent-Length: 11\r\nSet-Cookie: SESS=; Path=/; Max-Age=0\r\nX-Site-State: 3\r\nConnection: close\r\n\r\n{\"ok\":true}",
    ),
];

/// Who logged in, with which token, and the same.
const LOGGED_IN: [(u32, &[u8], u64, bool, &[u8]); 2] = [
    (
        2,
        b"00000000000000030000000000000004",
        2,
        false,
        b"HTTP/1.1 303 See Other\r\nContent-Type: text/html; charset=UTF-8\r\nContent-Length: 0\r\nLocation: /user/2\r\nSet-Cookie: SESS=00000000000000030000000000000004; Path=/; HttpOnly; SameSite=Lax\r\nX-Site-State: 2\r\n\r\n",
    ),
    (
        4_294_967_294,
        b"zzzzzzzzzzzzzzzzzzzzzzzzzzzzzzzzzzzzzzzzzzzzzzzzzzzzzzzzzzzzzzzz",
        18_446_744_073_709_551_615,
        true,
        b"HTTP/1.1 303 See Other\r\nContent-Type: text/html; charset=UTF-8\r\nContent-Length: 0\r\nLocation: /user/4294967294\r\nSet-Cookie: SESS=zzzzzzzzzzzzzzzzzzzzzzzzzzzzzzzzzzzzzzzzzzzzzzzzzzzzzzzzzzzzzzzz; Path=/; HttpOnly; SameSite=Lax\r\nX-Site-State: 18446744073709551615\r\nConnection: close\r\n\r\n",
    ),
];

#[test]
fn accepted_edits(rt: HostRuntime) {
    for (done, number, closing, wanted) in &DONE {
        assert!(rt; tells(done, *number, *closing, wanted));
    }
    for (uid, token, number, closing, wanted) in &LOGGED_IN {
        let token = Name::new(token).expect(&rt, "a name");
        assert!(rt; tells(&Done::LoggedIn(*uid, token), *number, *closing, wanted));
    }
}
