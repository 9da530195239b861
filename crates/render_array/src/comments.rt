//! The comments of a node: each builder writes what the plan of the same name shows.
ghost use Rattle.std.specs.Prelude.{◌≡◌, None, map};
ghost use Rattle.std.specs.List.{list_any};
ghost use Rattle.content_state.specs.Plan.{each};
ghost use Rattle.site_comments.specs.Viewed.{is_shown as is_shown_to};
ghost use Rattle.render_canvas.specs.Canvas.{Renders};
ghost use Rattle.content_state.specs.Comments.{shown_comment};
ghost use Rattle.render_array.specs.Nodes.{comment_text, comment_shown, comment_below, replies, comments_shown, comments_for, comments};

use crate::submitted::by_line;
use content_rows::Comment;
use content_state::Library;
use render_canvas::Canvas;
use site_access::{access_comments, administer_comments};
use site_comments::CommentReader;

/// How many levels deep comments stand in one another.
const LEVELS: usize = 9;

/// The text of a comment.
fn comment_text(canvas: &mut Canvas, text: &[u8])
    ensures { Renders (comment_text text.now) canvas.old tt canvas.new }
{
    canvas.write(b"<p>");
    canvas.escaped(text);
    canvas.write(b"</p>");
}

/// A comment of a node, and below it those that answer it, so many levels deep.
#[cycle(replies)]
fn comment_shown(
    canvas: &mut Canvas,
    reader: CommentReader,
    all: &[(u32, &Comment)],
    entry: &(u32, &Comment),
    levels: usize,
)
    ensures { Renders (comment_shown (replies levels reader (map shown_comment all.now)) (shown_comment entry.now)) canvas.old tt canvas.new }
{
    let (cid, comment) = *entry;
    canvas.comment(cid);
    canvas.write(b"<article class=\"comment\">");
    by_line(canvas, comment.uid, comment.created);
    comment_text(canvas, comment.body.as_slice());
    replies(canvas, reader, all, Some(cid), levels);
    canvas.write(b"</article>");
}

/// A comment of a node and those that answer it, where it answers the one of that number, or none, and may be viewed; else nothing.
#[cycle(replies)]
fn comment_below(
    canvas: &mut Canvas,
    reader: CommentReader,
    all: &[(u32, &Comment)],
    parent: Option<u32>,
    entry: &(u32, &Comment),
    levels: usize,
)
    ensures { Renders (comment_below (replies levels reader (map shown_comment all.now)) reader parent (shown_comment entry.now)) canvas.old tt canvas.new }
{
    if reader.is_shown(parent, entry.1) {
        comment_shown(canvas, reader, all, entry, levels);
    }
}

/// Those of the comments of a node that answer the one of that number, or none, in their order, so many levels deep.
#[cycle(replies)]
fn replies(
    canvas: &mut Canvas,
    reader: CommentReader,
    all: &[(u32, &Comment)],
    parent: Option<u32>,
    levels: usize,
)
    ensures { Renders (replies levels reader (map shown_comment all.now) parent) canvas.old tt canvas.new }
{
    if levels == 0 {
        return;
    }
    for entry in all {
        comment_below(canvas, reader, all, parent, entry, levels - 1);
    }
}

/// Whether a comment that answers none may be viewed.
fn is_any_shown(reader: CommentReader, all: &[(u32, &Comment)]) -> bool
    ensures { result ≡ list_any (λ e. is_shown_to reader None e.1) (map shown_comment all.now) }
{
    for entry in all {
        if reader.is_shown(None, entry.1) {
            return true;
        }
    }
    false
}

/// The comments of a node that the viewer may view; nothing where none is shown.
fn comments_shown(canvas: &mut Canvas, reader: CommentReader, all: &[(u32, &Comment)])
    ensures { Renders (comments_shown reader (map shown_comment all.now)) canvas.old tt canvas.new }
{
    if is_any_shown(reader, all) {
        canvas.attach(Library::Comment);
        canvas.write(b"<section class=\"comments\">");
        replies(canvas, reader, all, None, LEVELS);
        canvas.write(b"</section>");
    }
}

/// The comments of a node that the viewer may view. They are looked for only where the viewer may view some comments.
fn comments_for(canvas: &mut Canvas, reader: CommentReader, n: u32)
    ensures { Renders (comments_for reader n) canvas.old tt canvas.new }
{
    if reader.reads_some() {
        let all = canvas.comments_on(n);
        comments_shown(canvas, reader, all.as_slice());
    }
}

/// The comments of a node, as far as the viewer may view them.
pub(crate) fn comments(canvas: &mut Canvas, n: u32)
    ensures { Renders (comments n) canvas.old tt canvas.new }
{
    let administers = canvas.holds(administer_comments());
    let accesses = canvas.holds(access_comments());
    comments_for(
        canvas,
        CommentReader {
            administers,
            accesses,
        },
        n,
    );
}
