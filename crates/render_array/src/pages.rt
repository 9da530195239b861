//! Pages: each builder writes what the plan of the same name shows.
ghost use Rattle.std.specs.Prelude.{◌≡◌};
ghost use Rattle.std.specs.Option.{option_copied};
ghost use Rattle.content_state.specs.declared.element.Hole.TheVariants as hole;
ghost use Rattle.content_state.specs.declared.element.Fragment.TheVariants as fragment;
ghost use Rattle.content_state.specs.declared.element.Mode.TheVariants as mode;
ghost use Rattle.content_state.specs.declared.element.Placing.TheVariants as placing;
ghost use Rattle.content_state.specs.Plan.{part};
ghost use Rattle.site_access.specs.Routes.{listing_access};
ghost use Rattle.render_canvas.specs.Decision.{decision_of};
ghost use Rattle.render_canvas.specs.Canvas.{Renders};
ghost use Rattle.render_array.specs.Page.{
  site_name,
  page_top,
  page_bottom,
  framed,
  denied_content,
  denied,
  not_found,
  node_page,
  described,
  term_content,
  term_page,
  member_since,
  user_page,
  listing_page,
  login_content,
  login_page,
  nothing_found,
  page,
};

use crate::blocks::region;
use crate::json::{json_not_found, json_page};
use access_result::{PermissionText, Reason};
use cacheability::{Name, Op};
use content_rows::{Listing, Node, Region, Site, Term, User};
use content_state::{Fragment, Hole, Library, Mode, Placing, Route, is_json};
use render_canvas::Canvas;

/// The name of the site; empty where there are no settings.
fn name_of(site: Option<&Site>) -> &[u8]
    ensures { result.now ≡ site_name (option_copied site.entry) }
{
    match site {
        Some(site) => site.name.as_slice(),
        None => b"",
    }
}

/// A page down to its heading.
pub fn page_top(canvas: &mut Canvas, title: &[u8])
    ensures { Renders (page_top title.now) canvas.old tt canvas.new }
{
    let site = canvas.site();
    canvas.write(b"<!DOCTYPE html><html lang=\"en\"><head><title>");
    canvas.escaped(title);
    canvas.write(b" | ");
    canvas.escaped(name_of(site));
    canvas.write(b"</title>");
    canvas.open(Hole::Meta);
    canvas.write(b"</head><body><header>");
    region(canvas, Region::Header);
    canvas.write(b"</header><main><h1>");
    canvas.escaped(title);
    canvas.write(b"</h1>");
}

/// A page below its content.
pub fn page_bottom(canvas: &mut Canvas)
    ensures { Renders page_bottom canvas.old tt canvas.new }
{
    canvas.write(b"</main><aside>");
    region(canvas, Region::Aside);
    canvas.write(b"</aside><footer>");
    region(canvas, Region::Footer);
    canvas.write(b"</footer></body></html>");
}

/// The page of what isn't found, and its status.
pub fn not_found(canvas: &mut Canvas) -> u16
    ensures { Renders not_found canvas.old result canvas.new }
{
    page_top(canvas, b"Page not found");
    canvas.write(b"<p>The requested page could not be found.</p>");
    page_bottom(canvas);
    404
}

/// The content of a page that may not be viewed: why.
fn denied_content(canvas: &mut Canvas, reason: &Reason)
    ensures { Renders (denied_content reason.now) canvas.old tt canvas.new }
{
    canvas.write(b"<p>You are not authorized to access this page.</p><p>");
    canvas.reason(reason);
    canvas.write(b"</p>");
}

/// The page of what may not be viewed, and its status.
pub fn denied(canvas: &mut Canvas, reason: &Reason) -> u16
    ensures { Renders (denied reason.now) canvas.old result canvas.new }
{
    page_top(canvas, b"Access denied");
    denied_content(canvas, reason);
    page_bottom(canvas);
    403
}

/// The page of a node that may be viewed, where it stands in full, and its status.
fn node_framed(canvas: &mut Canvas, n: u32, node: &Node) -> u16
    ensures { Renders (framed 200 node.now.title (part (hole.Fragment (fragment.Node n mode.Full)))) canvas.old result canvas.new }
{
    page_top(canvas, node.title.as_slice());
    canvas.open(Hole::Fragment(Fragment::Node(n, Mode::Full)));
    page_bottom(canvas);
    200
}

/// The page of a node, and its status.
fn node_page(canvas: &mut Canvas, n: u32) -> u16
    ensures { Renders (node_page n) canvas.old result canvas.new }
{
    let Some(node) = canvas.node(n) else {
        return not_found(canvas);
    };
    match canvas.node_access(Op::View, n) {
        Ok(()) => node_framed(canvas, n, node),
        Err(reason) => denied(canvas, &reason),
    }
}

/// What a text says, in a paragraph; nothing where it is empty.
fn described(canvas: &mut Canvas, text: &[u8])
    ensures { Renders (described text.now) canvas.old tt canvas.new }
{
    if text.is_empty() {
        return;
    }
    canvas.write(b"<p>");
    canvas.escaped(text);
    canvas.write(b"</p>");
}

/// What a term means, and the place of its nodes for a viewer who may access content.
fn term_content(canvas: &mut Canvas, t: u32, term: &Term)
    ensures { Renders (term_content t term.now) canvas.old tt canvas.new }
{
    described(canvas, term.description.as_slice());
    if canvas.holds(b"access content") {
        canvas.open(Hole::Fragment(Fragment::TermListing(t)));
    }
}

/// The page of a term that may be viewed, and its status.
fn term_framed(canvas: &mut Canvas, t: u32, term: &Term) -> u16
    ensures { Renders (framed 200 term.now.name (term_content t term.now)) canvas.old result canvas.new }
{
    page_top(canvas, term.name.as_slice());
    term_content(canvas, t, term);
    page_bottom(canvas);
    200
}

/// The page of a term, and its status.
fn term_page(canvas: &mut Canvas, t: u32) -> u16
    ensures { Renders (term_page t) canvas.old result canvas.new }
{
    let Some(term) = canvas.term(t) else {
        return not_found(canvas);
    };
    match canvas.term_access(t) {
        Ok(()) => term_framed(canvas, t, term),
        Err(reason) => denied(canvas, &reason),
    }
}

/// Since when there is a user: the day of a moment.
fn member_since(canvas: &mut Canvas, moment: u64)
    ensures { Renders (member_since moment) canvas.old tt canvas.new }
{
    canvas.write(b"<p>Member since ");
    canvas.date(moment);
    canvas.write(b"</p>");
}

/// The page of a user who may be viewed, and its status.
fn user_framed(canvas: &mut Canvas, user: &User) -> u16
    ensures { Renders (framed 200 user.now.name (member_since user.now.created)) canvas.old result canvas.new }
{
    page_top(canvas, user.name.as_slice());
    member_since(canvas, user.created);
    page_bottom(canvas);
    200
}

/// The page of a user, and its status.
fn user_page(canvas: &mut Canvas, u: u32) -> u16
    ensures { Renders (user_page u) canvas.old result canvas.new }
{
    let Some(user) = canvas.user(u) else {
        return not_found(canvas);
    };
    match canvas.user_access(u) {
        Ok(()) => user_framed(canvas, user),
        Err(reason) => denied(canvas, &reason),
    }
}

/// Whether the viewer may view listings, or else why not. Where memory is wanting it is denied in vain.
pub(crate) fn listing_access(canvas: &mut Canvas) -> Result<(), Reason>
    ensures { Renders listing_access canvas.old (decision_of result) canvas.new }
{
    if canvas.holds(b"access content") {
        return Ok(());
    }
    match PermissionText::copied(canvas.allocator(), b"access content") {
        Ok(text) => Err(Reason::Permission(text)),
        Err(_) => {
            canvas.fail();
            Err(Reason::NoSession)
        }
    }
}

/// The page of a listing that may be viewed, and its status.
fn listing_framed(canvas: &mut Canvas, name: Name, listing: &Listing) -> u16
    ensures { Renders (framed 200 listing.now.title (part (hole.Fragment (fragment.Listing name placing.OnPage)))) canvas.old result canvas.new }
{
    page_top(canvas, listing.title.as_slice());
    canvas.open(Hole::Fragment(Fragment::Listing(name, Placing::OnPage)));
    page_bottom(canvas);
    200
}

/// The page of a listing, and its status.
fn listing_page(canvas: &mut Canvas, name: Name) -> u16
    ensures { Renders (listing_page name) canvas.old result canvas.new }
{
    let Some(listing) = canvas.listing(name) else {
        return not_found(canvas);
    };
    match listing_access(canvas) {
        Ok(()) => listing_framed(canvas, name, listing),
        Err(reason) => denied(canvas, &reason),
    }
}

/// The login form.
fn login_content(canvas: &mut Canvas)
    ensures { Renders login_content canvas.old tt canvas.new }
{
    canvas.attach(Library::Login);
    canvas.write(
        b"<form method=\"post\" action=\"/user/login\"><input name=\"name\"><input name=\"pass\" type=\"password\"><button>Log in</button></form>",
    );
}

/// The page of the login form, and its status.
fn login_page(canvas: &mut Canvas) -> u16
    ensures { Renders login_page canvas.old result canvas.new }
{
    page_top(canvas, b"Log in");
    login_content(canvas);
    page_bottom(canvas);
    200
}

/// What isn't found, told as JSON or shown as HTML, and its status.
fn nothing_found(canvas: &mut Canvas, json: bool) -> u16
    ensures { Renders (nothing_found json) canvas.old result canvas.new }
{
    if json {
        json_not_found(canvas)
    } else {
        not_found(canvas)
    }
}

/// The page of a path, as HTML or as JSON, and its status: 200, or 403 where it may not be viewed, or 404 where it leads nowhere.
pub fn page(canvas: &mut Canvas, path: &[u8]) -> u16
    ensures { Renders (page path.now) canvas.old result canvas.new }
{
    match canvas.route(path) {
        Route::Node(n) => node_page(canvas, n),
        Route::Term(t) => term_page(canvas, t),
        Route::User(u) => user_page(canvas, u),
        Route::Listing(name) => listing_page(canvas, name),
        Route::Json(it) => json_page(canvas, it),
        Route::Login => login_page(canvas),
        Route::Nothing => nothing_found(canvas, is_json(path)),
    }
}
