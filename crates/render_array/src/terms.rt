//! The terms of a node: each builder writes what the plan of the same name shows.
ghost use Rattle.std.specs.Prelude.{◌≡◌, ◌∷◌, ◌++◌, [], Some, IsSome};
ghost use Rattle.indexed_rows.specs.Rows.{term_of};
ghost use Rattle.content_state.specs.Plan.{Done, folded};
ghost use Rattle.render_canvas.specs.Canvas.{Renders};
ghost use Rattle.render_array.specs.Nodes.{may_view_term, with_viewable_term, term_named, term_item, terms_shown, terms};

use content_rows::{Node, Term};
use render_canvas::Canvas;

/// Whether the viewer may view a term.
fn may_view_term(canvas: &mut Canvas, t: u32) -> bool
    requires { IsSome (term_of canvas.old.visit.rows t) }
    ensures { Renders (may_view_term t) canvas.old result canvas.new }
{
    canvas.term_access(t).is_ok()
}

/// One more number among those that were gathered.
fn gather(canvas: &mut Canvas, found: &mut Vec<u32>, n: u32)
    ensures { Renders (Done (found.old.items ++ n ∷ [])) canvas.old found.new.items canvas.new }
{
    if found.push(n).is_err() {
        canvas.fail();
    }
}

/// One more term, where it is there and may be viewed.
fn with_viewable_term(canvas: &mut Canvas, found: &mut Vec<u32>, t: u32)
    ensures { Renders (with_viewable_term found.old.items t) canvas.old found.new.items canvas.new }
{
    if let Some(_term) = canvas.term(t) {
        if may_view_term(canvas, t) {
            gather(canvas, found, t);
        }
    }
}

/// Those of the terms that are there and may be viewed.
pub(crate) fn viewable_terms(canvas: &mut Canvas, ts: &[u32]) -> Vec<u32>
    ensures { Renders (folded with_viewable_term [] ts.now) canvas.old result.items canvas.new }
{
    let mut found = Vec::new(canvas.allocator());
    for t in ts {
        with_viewable_term(canvas, &mut found, *t);
    }
    found
}

/// A term that is there, as a link to its page.
fn term_named(canvas: &mut Canvas, t: u32, term: &Term)
    ensures { Renders (term_named t (Some term.now)) canvas.old tt canvas.new }
{
    canvas.write(b"<li><a href=\"/taxonomy/term/");
    canvas.number(t as u64);
    canvas.write(b"\">");
    canvas.escaped(term.name.as_slice());
    canvas.write(b"</a></li>");
}

/// A term, where it is there; else nothing.
fn term_item(canvas: &mut Canvas, t: u32)
    ensures { Renders (term_item t) canvas.old tt canvas.new }
{
    if let Some(term) = canvas.term(t) {
        term_named(canvas, t, term);
    }
}

/// A list of terms.
fn terms_shown(canvas: &mut Canvas, ts: &[u32])
    ensures { Renders (terms_shown ts.now) canvas.old tt canvas.new }
{
    canvas.write(b"<ul class=\"terms\">");
    for t in ts {
        term_item(canvas, *t);
    }
    canvas.write(b"</ul>");
}

/// A list of those terms of a node that are there and may be viewed; nothing where there is none.
pub(crate) fn terms(canvas: &mut Canvas, node: &Node)
    ensures { Renders (terms node.now) canvas.old tt canvas.new }
{
    let viewable = viewable_terms(canvas, node.terms.as_slice());
    let found = viewable.as_slice();
    if !found.is_empty() {
        terms_shown(canvas, found);
    }
}
