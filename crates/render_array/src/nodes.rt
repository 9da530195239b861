//! Nodes, in each of their modes: each builder writes what the plan of the same name shows.
ghost use Rattle.std.specs.Prelude.{◌≡◌, Some, IsSome};
ghost use Rattle.std.specs.List.{find};
ghost use Rattle.std.specs.Option.{option_copied};
ghost use Rattle.std.specs.Str.{bytes_eq};
ghost use Rattle.content_state.specs.Plan.{each};
ghost use Rattle.indexed_rows.specs.Rows.{type_of, node_of};
ghost use Rattle.render_canvas.specs.Decision.{HasField};
ghost use Rattle.render_canvas.specs.Canvas.{Renders};
ghost use Rattle.render_array.specs.Nodes.{
  may_view_node,
  may_view_field,
  field_value,
  field_shown,
  field,
  teaser_field,
  fields,
  teaser_fields,
  embedded,
  refs,
  refs_below,
  node_full,
  href,
  linked_title,
  node_teaser,
  node_embed,
  node_in_mode,
  node_shown,
};

use crate::comments::comments;
use crate::submitted::submitted_if;
use crate::terms::terms;
use cacheability::{Name, Op};
use content_rows::{FieldRow, FieldValue, Node, NodeType};
use content_state::{Depth, Fragment, Hole, Library, Mode};
use render_canvas::Canvas;

/// The first value of that name.
pub(crate) fn value_named<'a>(values: &'a [FieldValue], name: &Name) -> Option<&'a FieldValue>
    ensures { option_copied result ≡ find (λ value. bytes_eq value.name name.now) values.now }
{
    for value in values {
        if value.name.as_bytes() == name.as_bytes() {
            return Some(value);
        }
    }
    None
}

/// The value of a field in a node; empty where it has none.
fn value_in<'a>(node: &'a Node, name: &Name) -> &'a [u8]
    ensures { result.now ≡ field_value node.now name.now }
{
    match value_named(node.fields.as_slice(), name) {
        Some(value) => value.value.as_slice(),
        None => b"",
    }
}

/// A field: a label and a value.
fn field_shown(canvas: &mut Canvas, label: &[u8], value: &[u8])
    ensures { Renders (field_shown label.now value.now) canvas.old tt canvas.new }
{
    canvas.write(b"<div class=\"field\">");
    canvas.escaped(label);
    canvas.write(b": ");
    canvas.escaped(value);
    canvas.write(b"</div>");
}

/// Whether the viewer may view a node.
fn may_view_node(canvas: &mut Canvas, n: u32) -> bool
    requires { IsSome (node_of canvas.old.visit.rows n) }
    ensures { Renders (may_view_node n) canvas.old result canvas.new }
{
    canvas.node_access(Op::View, n).is_ok()
}

/// Whether the viewer may view a field of a node.
pub(crate) fn may_view_field(canvas: &mut Canvas, n: u32, node: &Node, field: &Name) -> bool
    requires node_is { node_of canvas.old.visit.rows n ≡ Some node.now }
    requires has_field { HasField (type_of canvas.old.visit.rows node.now.node_type) field.now }
    ensures { Renders (may_view_field n node.now.node_type field.now) canvas.old result canvas.new }
{
    canvas.field_access(Op::View, n, node, field).is_ok()
}

/// A field with a value that isn't empty, where it may be viewed.
fn field(canvas: &mut Canvas, n: u32, node: &Node, row: &FieldRow)
    requires node_is { node_of canvas.old.visit.rows n ≡ Some node.now }
    requires has_field { HasField (type_of canvas.old.visit.rows node.now.node_type) row.now.name }
    ensures { Renders (field n node.now row.now) canvas.old tt canvas.new }
{
    let value = value_in(node, &row.name);
    if value.is_empty() {
        return;
    }
    if may_view_field(canvas, n, node, &row.name) {
        field_shown(canvas, row.label.as_slice(), value);
    }
}

/// A field that is marked for teasers; else nothing.
fn teaser_field(canvas: &mut Canvas, n: u32, node: &Node, row: &FieldRow)
    requires node_is { node_of canvas.old.visit.rows n ≡ Some node.now }
    requires has_field { HasField (type_of canvas.old.visit.rows node.now.node_type) row.now.name }
    ensures { Renders (teaser_field n node.now row.now) canvas.old tt canvas.new }
{
    if row.teaser {
        field(canvas, n, node, row);
    }
}

/// The fields of a node, in the order of its type.
fn fields_of_type(canvas: &mut Canvas, n: u32, node: &Node, node_type: &NodeType)
    requires node_is { node_of canvas.old.visit.rows n ≡ Some node.now }
    requires type_is { type_of canvas.old.visit.rows node.now.node_type ≡ Some node_type.now }
    ensures { Renders (each (field n node.now) node_type.now.fields) canvas.old tt canvas.new }
{
    for row in node_type.fields.as_slice() {
        field(canvas, n, node, row);
    }
}

/// Those that are marked for teasers.
fn teaser_fields_of_type(canvas: &mut Canvas, n: u32, node: &Node, node_type: &NodeType)
    requires node_is { node_of canvas.old.visit.rows n ≡ Some node.now }
    requires type_is { type_of canvas.old.visit.rows node.now.node_type ≡ Some node_type.now }
    ensures { Renders (each (teaser_field n node.now) node_type.now.fields) canvas.old tt canvas.new }
{
    for row in node_type.fields.as_slice() {
        teaser_field(canvas, n, node, row);
    }
}

/// The fields of a node, in the order of its type, where that is there; else nothing.
fn fields(canvas: &mut Canvas, n: u32, node: &Node, node_type: Option<&NodeType>)
    requires node_is { node_of canvas.old.visit.rows n ≡ Some node.now }
    requires type_is { type_of canvas.old.visit.rows node.now.node_type ≡ option_copied node_type }
    ensures { Renders (fields n node.now (option_copied node_type.entry)) canvas.old tt canvas.new }
{
    if let Some(node_type) = node_type {
        fields_of_type(canvas, n, node, node_type);
    }
}

/// Those that are marked for teasers.
fn teaser_fields(canvas: &mut Canvas, n: u32, node: &Node, node_type: Option<&NodeType>)
    requires node_is { node_of canvas.old.visit.rows n ≡ Some node.now }
    requires type_is { type_of canvas.old.visit.rows node.now.node_type ≡ option_copied node_type }
    ensures { Renders (teaser_fields n node.now (option_copied node_type.entry)) canvas.old tt canvas.new }
{
    if let Some(node_type) = node_type {
        teaser_fields_of_type(canvas, n, node, node_type);
    }
}

/// The place of a node that another refers to.
fn embedded(canvas: &mut Canvas, deep: Depth, n: u32)
    ensures { Renders (embedded deep n) canvas.old tt canvas.new }
{
    canvas.open(Hole::Fragment(Fragment::Node(n, Mode::Embed(deep))));
}

/// The places of the nodes that a node refers to.
fn refs(canvas: &mut Canvas, deep: Depth, node: &Node)
    ensures { Renders (refs deep node.now) canvas.old tt canvas.new }
{
    for n in node.refs.as_slice() {
        embedded(canvas, deep, *n);
    }
}

/// The places of the nodes that an embedded node refers to, one deeper; at the third nothing.
fn refs_below(canvas: &mut Canvas, deep: Depth, node: &Node)
    ensures { Renders (refs_below deep node.now) canvas.old tt canvas.new }
{
    match deep {
        Depth::One => refs(canvas, Depth::Two, node),
        Depth::Two => refs(canvas, Depth::Three, node),
        Depth::Three => {}
    }
}

/// A node in full.
fn node_full(canvas: &mut Canvas, n: u32, node: &Node)
    requires { node_of canvas.old.visit.rows n ≡ Some node.now }
    ensures { Renders (node_full n node.now) canvas.old tt canvas.new }
{
    canvas.attach(Library::Node);
    let node_type = canvas.node_type(node.node_type);
    canvas.write(b"<article>");
    submitted_if(canvas, node, node_type);
    fields(canvas, n, node, node_type);
    terms(canvas, node);
    refs(canvas, Depth::One, node);
    comments(canvas, n);
    canvas.write(b"</article>");
}

/// Where a node stands: at its own path, or else by its number.
fn href(canvas: &mut Canvas, n: u32, node: &Node)
    ensures { Renders (href n node.now.path) canvas.old tt canvas.new }
{
    match &node.path {
        Some(path) => canvas.escaped(path.as_slice()),
        None => {
            canvas.write(b"/node/");
            canvas.number(n as u64);
        }
    }
}

/// The title of a node, as a link to it.
fn linked_title(canvas: &mut Canvas, n: u32, node: &Node)
    ensures { Renders (linked_title n node.now) canvas.old tt canvas.new }
{
    canvas.write(b"<article><h2><a href=\"");
    href(canvas, n, node);
    canvas.write(b"\">");
    canvas.escaped(node.title.as_slice());
    canvas.write(b"</a></h2>");
}

/// A node as listings show it.
fn node_teaser(canvas: &mut Canvas, n: u32, node: &Node)
    requires { node_of canvas.old.visit.rows n ≡ Some node.now }
    ensures { Renders (node_teaser n node.now) canvas.old tt canvas.new }
{
    canvas.attach(Library::Node);
    let node_type = canvas.node_type(node.node_type);
    linked_title(canvas, n, node);
    submitted_if(canvas, node, node_type);
    teaser_fields(canvas, n, node, node_type);
    canvas.write(b"</article>");
}

/// A node within one that refers to it, so deep.
fn node_embed(canvas: &mut Canvas, deep: Depth, n: u32, node: &Node)
    requires { node_of canvas.old.visit.rows n ≡ Some node.now }
    ensures { Renders (node_embed deep n node.now) canvas.old tt canvas.new }
{
    canvas.attach(Library::Node);
    let node_type = canvas.node_type(node.node_type);
    linked_title(canvas, n, node);
    teaser_fields(canvas, n, node, node_type);
    refs_below(canvas, deep, node);
    canvas.write(b"</article>");
}

/// A node that may be viewed, in a mode.
fn node_in_mode(canvas: &mut Canvas, n: u32, mode: Mode, node: &Node)
    requires { node_of canvas.old.visit.rows n ≡ Some node.now }
    ensures { Renders (node_in_mode mode n node.now) canvas.old tt canvas.new }
{
    match mode {
        Mode::Full => node_full(canvas, n, node),
        Mode::Teaser => node_teaser(canvas, n, node),
        Mode::Embed(deep) => node_embed(canvas, deep, n, node),
    }
}

/// A node in a mode, where it is there and may be viewed; else nothing.
pub(crate) fn node_shown(canvas: &mut Canvas, n: u32, mode: Mode)
    ensures { Renders (node_shown n mode) canvas.old tt canvas.new }
{
    if let Some(node) = canvas.node(n) {
        if may_view_node(canvas, n) {
            node_in_mode(canvas, n, mode, node);
        }
    }
}
