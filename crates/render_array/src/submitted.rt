//! Who made a node or a comment, and when: each builder writes what the plan of the same name shows.
ghost use Rattle.std.specs.Prelude.{◌≡◌, Some, IsSome};
ghost use Rattle.std.specs.Option.{option_copied};
ghost use Rattle.indexed_rows.specs.Rows.{user_of};
ghost use Rattle.render_canvas.specs.Canvas.{Renders};
ghost use Rattle.render_array.specs.Nodes.{may_view_user, linked_author, author_found, author, by_line, submitted, is_submitted, submitted_if};

use content_rows::{Node, NodeType, User};
use render_canvas::Canvas;

/// Whether the viewer may view the profile of a user.
fn may_view_user(canvas: &mut Canvas, uid: u32) -> bool
    requires { IsSome (user_of canvas.old.visit.rows uid) }
    ensures { Renders (may_view_user uid) canvas.old result canvas.new }
{
    canvas.user_access(uid).is_ok()
}

/// The name of a user, as a link to its profile.
fn linked_author(canvas: &mut Canvas, uid: u32, name: &[u8])
    ensures { Renders (linked_author uid name.now) canvas.old tt canvas.new }
{
    canvas.write(b"<a href=\"/user/");
    canvas.number(uid as u64);
    canvas.write(b"\">");
    canvas.escaped(name);
    canvas.write(b"</a>");
}

/// The name of a user that is there, linked where the viewer may view its profile.
fn author_found(canvas: &mut Canvas, uid: u32, user: &User)
    requires { IsSome (user_of canvas.old.visit.rows uid) }
    ensures { Renders (author_found uid (Some user.now)) canvas.old tt canvas.new }
{
    if may_view_user(canvas, uid) {
        linked_author(canvas, uid, user.name.as_slice());
    } else {
        canvas.escaped(user.name.as_slice());
    }
}

/// The name of who owns a node; nobody, and who isn't there, is anonymous.
fn author(canvas: &mut Canvas, uid: u32)
    ensures { Renders (author uid) canvas.old tt canvas.new }
{
    if uid == 0 {
        return canvas.write(b"Anonymous");
    }
    match canvas.user(uid) {
        Some(user) => author_found(canvas, uid, user),
        None => canvas.write(b"Anonymous"),
    }
}

/// By whom something was made, and on which day.
pub(crate) fn by_line(canvas: &mut Canvas, uid: u32, created: u64)
    ensures { Renders (by_line uid created) canvas.old tt canvas.new }
{
    canvas.write(b"<p>By ");
    author(canvas, uid);
    canvas.write(b" on ");
    canvas.date(created);
    canvas.write(b"</p>");
}

/// Who owns a node, and the day on which it was made.
fn submitted(canvas: &mut Canvas, node: &Node)
    ensures { Renders (submitted node.now) canvas.old tt canvas.new }
{
    by_line(canvas, node.uid, node.created);
}

/// Whether a type that is there says that its nodes show who owns them, and the day on which they were made.
fn is_submitted(node_type: Option<&NodeType>) -> bool
    ensures { result ≡ is_submitted (option_copied node_type.entry) }
{
    match node_type {
        Some(node_type) => node_type.submitted,
        None => false,
    }
}

/// Who owns a node, and the day on which it was made, where the type of the node says so; else nothing.
pub(crate) fn submitted_if(canvas: &mut Canvas, node: &Node, node_type: Option<&NodeType>)
    ensures { Renders (submitted_if node.now (option_copied node_type.entry)) canvas.old tt canvas.new }
{
    if is_submitted(node_type) {
        submitted(canvas, node);
    }
}
