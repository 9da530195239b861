//! Blocks, and the regions that they stand in: each builder writes what the plan of the same name shows.
ghost use Rattle.std.specs.Prelude.{◌≡◌};
ghost use Rattle.std.specs.Option.{option_copied};
ghost use Rattle.render_canvas.specs.Canvas.{Renders};
ghost use Rattle.render_array.specs.Blocks.{
  text_body,
  menu_body,
  listing_body,
  name_of_user,
  hello,
  greeting_body,
  csrf_body,
  clock_body,
  body_of_kind,
  block_label,
  block_view,
  block_shown,
  block_place,
  region,
};

use cacheability::Name;
use content_rows::{Block, BlockKind, Region, Text, User};
use content_state::{Fragment, Hole, Library, Placing};
use render_canvas::Canvas;

/// A text in a paragraph, if there is one.
fn text_body(canvas: &mut Canvas, text: &Option<Text>)
    ensures { Renders (text_body text.now) canvas.old tt canvas.new }
{
    if let Some(text) = text {
        canvas.write(b"<p>");
        canvas.escaped(text.as_slice());
        canvas.write(b"</p>");
    }
}

/// The place of a menu, where one is named that is there.
fn menu_body(canvas: &mut Canvas, name: Option<Name>)
    ensures { Renders (menu_body name) canvas.old tt canvas.new }
{
    let Some(name) = name else {
        return;
    };
    if let Some(_) = canvas.menu(name) {
        canvas.open(Hole::Fragment(Fragment::Menu(name)));
    }
}

/// The place of a listing, where one is named that is there, for a viewer who may access content.
fn listing_body(canvas: &mut Canvas, name: Option<Name>)
    ensures { Renders (listing_body name) canvas.old tt canvas.new }
{
    let Some(name) = name else {
        return;
    };
    let Some(_) = canvas.listing(name) else {
        return;
    };
    if canvas.holds(b"access content") {
        canvas.open(Hole::Fragment(Fragment::Listing(name, Placing::InBlock)));
    }
}

/// The name of a user; empty where there is no such user.
fn name_of_user(user: Option<&User>) -> &[u8]
    ensures { result.now ≡ name_of_user (option_copied user.entry) }
{
    match user {
        Some(user) => user.name.as_slice(),
        None => b"",
    }
}

/// A greeting of a user.
fn hello(canvas: &mut Canvas, uid: u32)
    ensures { Renders (hello uid) canvas.old tt canvas.new }
{
    let user = canvas.user(uid);
    canvas.write(b"<p>Hello, ");
    canvas.escaped(name_of_user(user));
    canvas.write(b"</p>");
}

/// A greeting of who is logged in; for everybody else where to log in.
fn greeting_body(canvas: &mut Canvas)
    ensures { Renders greeting_body canvas.old tt canvas.new }
{
    let uid = canvas.viewer();
    if uid == 0 {
        canvas.write(b"<p><a href=\"/user/login\">Log in</a></p>");
    } else {
        hello(canvas, uid);
    }
}

/// The value that guards the forms of a session; nothing where there is none.
fn csrf_body(canvas: &mut Canvas)
    ensures { Renders csrf_body canvas.old tt canvas.new }
{
    if let Some(token) = canvas.session() {
        canvas.write(b"<p class=\"csrf\">");
        canvas.csrf(&token);
        canvas.write(b"</p>");
    }
}

/// The time, which may be shown so many seconds.
fn clock_body(canvas: &mut Canvas, age: u32)
    ensures { Renders (clock_body age) canvas.old tt canvas.new }
{
    canvas.attach(Library::Clock);
    let moment = canvas.clock(age);
    canvas.write(b"<time>");
    canvas.moment(moment);
    canvas.write(b"</time>");
}

/// What a block shows, by its kind.
fn body_of_kind(canvas: &mut Canvas, block: &Block)
    ensures { Renders (body_of_kind block.now.kind block.now) canvas.old tt canvas.new }
{
    match block.kind {
        BlockKind::Text => text_body(canvas, &block.text),
        BlockKind::Menu => menu_body(canvas, block.name),
        BlockKind::Listing => listing_body(canvas, block.name),
        BlockKind::Greeting => greeting_body(canvas),
        BlockKind::Csrf => csrf_body(canvas),
        BlockKind::Clock => clock_body(canvas, block.age.unwrap_or(0)),
    }
}

/// A block's heading; nothing where it is empty.
fn block_label(canvas: &mut Canvas, label: &[u8])
    ensures { Renders (block_label label.now) canvas.old tt canvas.new }
{
    if label.is_empty() {
        return;
    }
    canvas.write(b"<h2>");
    canvas.escaped(label);
    canvas.write(b"</h2>");
}

/// A block: its heading and what it shows.
fn block_view(canvas: &mut Canvas, block: &Block)
    ensures { Renders (block_view block.now) canvas.old tt canvas.new }
{
    canvas.write(b"<section class=\"block\">");
    block_label(canvas, block.label.as_slice());
    body_of_kind(canvas, block);
    canvas.write(b"</section>");
}

/// A block, where it is there; else nothing.
pub fn block_shown(canvas: &mut Canvas, name: Name)
    ensures { Renders (block_shown name) canvas.old tt canvas.new }
{
    if let Some(block) = canvas.block(name) {
        block_view(canvas, block);
    }
}

/// The place of a block, where it is there and shows; else nothing.
fn block_place(canvas: &mut Canvas, name: Name)
    ensures { Renders (block_place name) canvas.old tt canvas.new }
{
    let Some(block) = canvas.block(name) else {
        return;
    };
    if canvas.visible(block) {
        canvas.open(Hole::Fragment(Fragment::Block(name)));
    }
}

/// The places of a region's blocks, by weight, then by name.
pub fn region(canvas: &mut Canvas, where_placed: Region)
    ensures { Renders (region where_placed) canvas.old tt canvas.new }
{
    let names = canvas.block_names(where_placed);
    for name in &names {
        block_place(canvas, *name);
    }
}
