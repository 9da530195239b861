//! The reply of an accepted edit.
ghost use Rattle.std.specs.Prelude.{◌≡◌, ◌≤◌, ◌+◌, ◌++◌, length, decimal, Some};
ghost use Rattle.arrayvec.specs.ArrayVec.{array_vec_len};
ghost use Rattle.http_heads.specs.Reply.{status_text, media_text, number_text, length_text, location_text, cookie_text, state_text, close_text, line_end, set_mark, set_end};
ghost use Rattle.edit_replies.specs.Bodies.{done_body, done_status, vid_between, object_end, nid_start};
ghost use Rattle.edit_replies.specs.Texts.{done_text, done_media, done_location, done_cookie};

use crate::room::{put, put_number};
use arrayvec::ArrayVec;
use cacheability::Name;
use site_commands::Done;

/// Appends the id and the version of a node.
fn put_node(out: &mut ArrayVec<u8, 64>, nid: u32, vid: u32)
    requires { array_vec_len out.old ≡ 0 }
    ensures { out.new.items ≡ out.old.items ++ (nid_start ++ decimal nid ++ vid_between ++ decimal vid ++ object_end) }
{
    put(out, b"{\"nid\":");
    put_number(out, u64::from(nid));
    put(out, b",\"vid\":");
    put_number(out, u64::from(vid));
    put(out, b"}");
}

/// Appends an id, after what stands before it.
fn put_id(out: &mut ArrayVec<u8, 64>, start: &[u8], id: u32)
    requires empty { array_vec_len out.old ≡ 0 }
    requires short { length start.now ≤ 7 }
    ensures { out.new.items ≡ out.old.items ++ (start.now ++ decimal id ++ object_end) }
{
    put(out, start);
    put_number(out, u64::from(id));
    put(out, b"}");
}

/// The body of the reply: the ids of what was made.
#[tactic(auto, unfolding(crate::specs::Bodies::done_body))]
fn done_body(done: &Done) -> ArrayVec<u8, 64>
    ensures { result.items ≡ done_body done.now }
{
    let mut body = ArrayVec::new();
    let out = &mut body;
    match done {
        Done::NodeCreated(nid) => put_node(out, *nid, 1),
        Done::NodeChanged(nid, vid) => put_node(out, *nid, *vid),
        Done::TermCreated(tid) => put_id(out, b"{\"tid\":", *tid),
        Done::UserCreated(uid) => put_id(out, b"{\"uid\":", *uid),
        Done::CommentCreated(cid) => put_id(out, b"{\"cid\":", *cid),
        Done::Saved | Done::LoggedOut => put(out, b"{\"ok\":true}"),
        Done::LoggedIn(..) => {}
    }
    body
}

/// The status line.
#[tactic(auto, using(crate::proofs::Lines::ok_line_is, crate::proofs::Lines::created_line_is, crate::proofs::Lines::see_other_line_is))]
fn status_line(done: &Done) -> &'static [u8]
    ensures text { result.now ≡ status_text (done_status done.now) }
    ensures short { length result.now ≤ 24 }
{
    match done {
        Done::NodeCreated(_)
        | Done::TermCreated(_)
        | Done::UserCreated(_)
        | Done::CommentCreated(_) => b"HTTP/1.1 201 Created\r\n",
        Done::NodeChanged(..) | Done::Saved | Done::LoggedOut => b"HTTP/1.1 200 OK\r\n",
        Done::LoggedIn(..) => b"HTTP/1.1 303 See Other\r\n",
    }
}

/// Content-Type.
#[tactic(auto, unfolding(http_heads::specs::Reply::html_line, http_heads::specs::Reply::json_line))]
fn media_line(done: &Done) -> &'static [u8]
    ensures text { result.now ≡ media_text (done_media done.now) }
    ensures short { length result.now ≤ 40 }
{
    match done {
        Done::LoggedIn(..) => b"Content-Type: text/html; charset=UTF-8\r\n",
        _ => b"Content-Type: application/json\r\n",
    }
}

/// Appends a line of a field whose value ends in a number.
#[tactic(auto, unfolding(http_heads::specs::Reply::line_end))]
fn put_line(out: &mut ArrayVec<u8, 512>, mark: &[u8], number: u64)
    requires { array_vec_len out.old + length mark.now + 22 ≤ 512 }
    ensures text { out.new.items ≡ out.old.items ++ number_text mark.now number }
    ensures short { array_vec_len out.new ≤ array_vec_len out.old + length mark.now + 22 }
{
    put(out, mark);
    put_number(out, number);
    put(out, b"\r\n");
}

/// Appends Content-Length.
#[tactic(auto, unfolding(http_heads::specs::Reply::length_mark))]
fn put_length(out: &mut ArrayVec<u8, 512>, size: u64)
    requires { array_vec_len out.old + 38 ≤ 512 }
    ensures text { out.new.items ≡ out.old.items ++ length_text (Some size) }
    ensures short { array_vec_len out.new ≤ array_vec_len out.old + 38 }
{
    put_line(out, b"Content-Length: ", size);
}

/// Appends the place of the page of a user.
#[tactic(auto, unfolding(http_heads::specs::Reply::location_mark))]
fn put_user(out: &mut ArrayVec<u8, 512>, uid: u64)
    requires { array_vec_len out.old + 38 ≤ 512 }
    ensures text { out.new.items ≡ out.old.items ++ location_text (Some uid) }
    ensures short { array_vec_len out.new ≤ array_vec_len out.old + 38 }
{
    put_line(out, b"Location: /user/", uid);
}

/// Appends Location.
fn put_location(out: &mut ArrayVec<u8, 512>, done: &Done)
    requires { array_vec_len out.old + 38 ≤ 512 }
    ensures text { out.new.items ≡ out.old.items ++ location_text (done_location done.now) }
    ensures short { array_vec_len out.new ≤ array_vec_len out.old + 38 }
{
    if let Done::LoggedIn(uid, _) = done {
        put_user(out, u64::from(*uid));
    }
}

/// What stands before the token of a cookie that is set.
#[tactic(auto, unfolding(http_heads::specs::Reply::set_mark))]
fn token_start() -> &'static [u8]
    ensures text { result.now ≡ set_mark }
    ensures short { length result.now ≤ 17 }
{
    b"Set-Cookie: SESS="
}

/// What stands after the token of a cookie that is set.
#[tactic(auto, unfolding(http_heads::specs::Reply::set_end))]
fn token_end() -> &'static [u8]
    ensures text { result.now ≡ set_end }
    ensures short { length result.now ≤ 36 }
{
    b"; Path=/; HttpOnly; SameSite=Lax\r\n"
}

/// Appends what sets the cookie to a token.
fn put_token(out: &mut ArrayVec<u8, 512>, token: &Name)
    requires { array_vec_len out.old + 117 ≤ 512 }
    ensures text { out.new.items ≡ out.old.items ++ (set_mark ++ token.now ++ set_end) }
    ensures short { array_vec_len out.new ≤ array_vec_len out.old + 117 }
{
    put(out, token_start());
    put(out, token.as_bytes());
    put(out, token_end());
}

/// Appends Set-Cookie.
#[tactic(auto, unfolding(http_heads::specs::Reply::clear_line))]
fn put_cookie(out: &mut ArrayVec<u8, 512>, done: &Done)
    requires { array_vec_len out.old + 117 ≤ 512 }
    ensures text { out.new.items ≡ out.old.items ++ cookie_text (done_cookie done.now) }
    ensures short { array_vec_len out.new ≤ array_vec_len out.old + 117 }
{
    match done {
        Done::LoggedIn(_, token) => put_token(out, token),
        Done::LoggedOut => put(out, b"Set-Cookie: SESS=; Path=/; Max-Age=0\r\n"),
        _ => {}
    }
}

/// Appends X-Site-State.
#[tactic(auto, unfolding(http_heads::specs::Reply::state_mark))]
fn put_state(out: &mut ArrayVec<u8, 512>, number: u64)
    requires { array_vec_len out.old + 36 ≤ 512 }
    ensures text { out.new.items ≡ out.old.items ++ state_text (Some number) }
    ensures short { array_vec_len out.new ≤ array_vec_len out.old + 36 }
{
    put_line(out, b"X-Site-State: ", number);
}

/// Appends Connection.
#[tactic(auto, unfolding(http_heads::specs::Reply::close_line))]
fn put_close(out: &mut ArrayVec<u8, 512>, closing: bool)
    requires { array_vec_len out.old + 19 ≤ 512 }
    ensures text { out.new.items ≡ out.old.items ++ close_text closing }
    ensures short { array_vec_len out.new ≤ array_vec_len out.old + 19 }
{
    if closing {
        put(out, b"Connection: close\r\n");
    }
}

/// Appends the empty line that ends the head, and the body.
#[tactic(auto, unfolding(http_heads::specs::Reply::line_end))]
fn put_body(out: &mut ArrayVec<u8, 512>, body: &[u8])
    requires { array_vec_len out.old + 2 + length body.now ≤ 512 }
    ensures { out.new.items ≡ out.old.items ++ (line_end ++ body.now) }
{
    put(out, b"\r\n");
    put(out, body);
}

/// The reply of an accepted edit. It takes no memory, so that no edit that was made lacks its reply: the longest one
/// has fewer than 512 bytes. What was made is told by its id, a node's version beside it, with 201; what was changed
/// or removed with 200; who logs in is sent to the page of the user, with a cookie of the session (303), and who
/// logs out has it cleared. `number` is that of the state that the edit made, and `closing` says whether the
/// connection closes after the reply.
#[tactic(auto, unfolding(http_heads::specs::Reply::head_text))]
pub fn done_text(done: &Done, number: u64, closing: bool) -> ArrayVec<u8, 512>
    ensures text { result.items ≡ done_text done.now number closing }
{
    let body = done_body(done);
    let mut text = ArrayVec::new();
    let out = &mut text;
    put(out, status_line(done));
    put(out, media_line(done));
    put_length(out, body.len() as u64);
    put_location(out, done);
    put_cookie(out, done);
    put_state(out, number);
    put_close(out, closing);
    put_body(out, body.as_slice());
    text
}
