//! Nodes as JSON: those of the fields and terms of a node that may be viewed are gathered, and told with it.
ghost use Rattle.std.specs.Prelude.{◌≡◌, ◌++◌, ◌∷◌, [], Some, map};
ghost use Rattle.std.specs.Option.{option_copied};
ghost use Rattle.content_state.specs.Plan.{Done, folded};
ghost use Rattle.indexed_rows.specs.Rows.{type_of, node_of};
ghost use Rattle.site_access.specs.Access.{Allowed};
ghost use Rattle.render_canvas.specs.Decision.{HasField};
ghost use Rattle.render_canvas.specs.Canvas.{Renders};
ghost use Rattle.render_array.specs.Json.{
  with_value,
  with_shown_field,
  shown_fields,
  json_node_answer,
  json_node,
};

use crate::json::{json_denied, json_not_found, told};
use crate::nodes::{may_view_field, value_named};
use crate::terms::viewable_terms;
use cacheability::Op;
use content_rows::{FieldRow, FieldValue, Node, NodeType};
use json_out::node_json;
use render_canvas::Canvas;

/// One more value among those that were gathered.
fn gather_value<'a>(canvas: &mut Canvas, found: &mut Vec<&'a FieldValue>, value: &'a FieldValue)
    ensures { Renders (Done (map (λ value. value.now) found.old.items ++ value.now ∷ [])) canvas.old (map (λ value. value.now) found.new.items) canvas.new }
{
    if found.push(value).is_err() {
        canvas.fail();
    }
}

/// One more value, where it isn't empty and may be viewed.
fn with_value<'a>(
    canvas: &mut Canvas,
    n: u32,
    node: &Node,
    found: &mut Vec<&'a FieldValue>,
    value: &'a FieldValue,
)
    requires node_is { node_of canvas.old.visit.rows n ≡ Some node.now }
    requires has_field { HasField (type_of canvas.old.visit.rows node.now.node_type) value.now.name }
    ensures { Renders (with_value n node.now.node_type (map (λ value. value.now) found.old.items) value.now.name value.now.value) canvas.old (map (λ value. value.now) found.new.items) canvas.new }
{
    if value.value.as_slice().is_empty() {
        return;
    }
    if may_view_field(canvas, n, node, &value.name) {
        gather_value(canvas, found, value);
    }
}

/// The value of one more field of a node, where it isn't empty and may be viewed.
fn with_shown_field<'a>(
    canvas: &mut Canvas,
    n: u32,
    node: &'a Node,
    found: &mut Vec<&'a FieldValue>,
    row: &FieldRow,
)
    requires node_is { node_of canvas.old.visit.rows n ≡ Some node.now }
    requires has_field { HasField (type_of canvas.old.visit.rows node.now.node_type) row.now.name }
    ensures { Renders (with_shown_field n node.now (map (λ value. value.now) found.old.items) row.now) canvas.old (map (λ value. value.now) found.new.items) canvas.new }
{
    if let Some(value) = value_named(node.fields.as_slice(), &row.name) {
        with_value(canvas, n, node, found, value);
    }
}

/// The values of those fields of a node that may be viewed, in the order of its type.
fn shown_fields_of_type<'a>(
    canvas: &mut Canvas,
    n: u32,
    node: &'a Node,
    node_type: &NodeType,
) -> Vec<&'a FieldValue>
    requires node_is { node_of canvas.old.visit.rows n ≡ Some node.now }
    requires type_is { type_of canvas.old.visit.rows node.now.node_type ≡ Some node_type.now }
    ensures { Renders (folded (with_shown_field n node.now) [] node_type.now.fields) canvas.old (map (λ value. value.now) result.items) canvas.new }
{
    let mut found = Vec::new(canvas.allocator());
    for row in node_type.fields.as_slice() {
        with_shown_field(canvas, n, node, &mut found, row);
    }
    found
}

/// The values of those fields of a node that may be viewed, in the order of its type; none where the type is not there.
fn shown_fields<'a>(
    canvas: &mut Canvas,
    n: u32,
    node: &'a Node,
    node_type: Option<&NodeType>,
) -> Vec<&'a FieldValue>
    requires node_is { node_of canvas.old.visit.rows n ≡ Some node.now }
    requires type_is { type_of canvas.old.visit.rows node.now.node_type ≡ option_copied node_type }
    ensures { Renders (shown_fields n node.now (option_copied node_type.entry)) canvas.old (map (λ value. value.now) result.items) canvas.new }
{
    match node_type {
        Some(node_type) => shown_fields_of_type(canvas, n, node, node_type),
        None => Vec::new(canvas.allocator()),
    }
}

/// A node that may be viewed, and its status.
fn json_node_told(canvas: &mut Canvas, n: u32, node: &Node) -> u16
    requires { node_of canvas.old.visit.rows n ≡ Some node.now }
    ensures { Renders (json_node_answer n node.now Allowed) canvas.old result canvas.new }
{
    let node_type = canvas.node_type(node.node_type);
    let fields = shown_fields(canvas, n, node, node_type);
    let terms = viewable_terms(canvas, node.terms.as_slice());
    let text = node_json(
        canvas.allocator(),
        n,
        node,
        fields.as_slice(),
        terms.as_slice(),
    );
    told(canvas, 200, text)
}

/// A node, and its status.
pub(crate) fn json_node(canvas: &mut Canvas, n: u32) -> u16
    ensures { Renders (json_node n) canvas.old result canvas.new }
{
    let Some(node) = canvas.node(n) else {
        return json_not_found(canvas);
    };
    match canvas.node_access(Op::View, n) {
        Ok(()) => json_node_told(canvas, n, node),
        Err(reason) => json_denied(canvas, &reason),
    }
}
