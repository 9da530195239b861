//! What is told as JSON, in place of pages: each builder writes what the plan of the same name shows. What is read is gathered
//! first, and the text is written at once.
ghost use Rattle.std.specs.Prelude.{◌≡◌, ℕ, List, IfOk};
ghost use Rattle.site_access.specs.Access.{Allowed};
ghost use Rattle.render_canvas.specs.Canvas.{Renders};
ghost use Rattle.render_array.specs.Json.{
  told,
  json_denied,
  json_not_found,
  json_term_answer,
  json_term,
  json_user_answer,
  json_user,
  json_page,
};

use crate::json_listings::json_listing;
use crate::json_nodes::json_node;
use access_result::Reason;
use content_rows::{Term, User};
use content_state::Entity;
use json_out::{denied_json, no_target_json, term_json, user_json};
use render_canvas::Canvas;
use std::alloc::AllocError;

/// Writes a text, and gives the status of what it tells. Where memory was wanting for the text, there is none.
pub(crate) fn told(canvas: &mut Canvas, status: u16, text: Result<Vec<u8>, AllocError>) -> u16
    ensures { (bytes : List ℕ) → IfOk text (λ t. t.items ≡ bytes) → Renders (told status bytes) canvas.old result canvas.new }
{
    match text {
        Ok(bytes) => canvas.write(bytes.as_slice()),
        Err(_) => canvas.fail(),
    }
    status
}

/// That something may not be viewed, and the status of that.
pub(crate) fn json_denied(canvas: &mut Canvas, reason: &Reason) -> u16
    ensures { Renders (json_denied reason.now) canvas.old result canvas.new }
{
    let text = denied_json(canvas.allocator(), reason);
    told(canvas, 403, text)
}

/// That nothing is there, and the status of that.
pub(crate) fn json_not_found(canvas: &mut Canvas) -> u16
    ensures { Renders json_not_found canvas.old result canvas.new }
{
    let text = no_target_json(canvas.allocator());
    told(canvas, 404, text)
}

/// A term that may be viewed, and its status.
fn json_term_told(canvas: &mut Canvas, t: u32, term: &Term) -> u16
    ensures { Renders (json_term_answer t term.now Allowed) canvas.old result canvas.new }
{
    let text = term_json(canvas.allocator(), t, term);
    told(canvas, 200, text)
}

/// A term, and its status.
fn json_term(canvas: &mut Canvas, t: u32) -> u16
    ensures { Renders (json_term t) canvas.old result canvas.new }
{
    let Some(term) = canvas.term(t) else {
        return json_not_found(canvas);
    };
    match canvas.term_access(t) {
        Ok(()) => json_term_told(canvas, t, term),
        Err(reason) => json_denied(canvas, &reason),
    }
}

/// A user who may be viewed, and the status.
fn json_user_told(canvas: &mut Canvas, u: u32, user: &User) -> u16
    ensures { Renders (json_user_answer u user.now Allowed) canvas.old result canvas.new }
{
    let text = user_json(canvas.allocator(), u, user);
    told(canvas, 200, text)
}

/// A user, and the status.
fn json_user(canvas: &mut Canvas, u: u32) -> u16
    ensures { Renders (json_user u) canvas.old result canvas.new }
{
    let Some(user) = canvas.user(u) else {
        return json_not_found(canvas);
    };
    match canvas.user_access(u) {
        Ok(()) => json_user_told(canvas, u, user),
        Err(reason) => json_denied(canvas, &reason),
    }
}

/// What is told in place of a page, and its status: 200, or 403 where it may not be viewed, or 404 where it isn't there.
pub(crate) fn json_page(canvas: &mut Canvas, it: Entity) -> u16
    ensures { Renders (json_page it) canvas.old result canvas.new }
{
    match it {
        Entity::Node(n) => json_node(canvas, n),
        Entity::Term(t) => json_term(canvas, t),
        Entity::User(u) => json_user(canvas, u),
        Entity::Listing(name) => json_listing(canvas, name),
    }
}
