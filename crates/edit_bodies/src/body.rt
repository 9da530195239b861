//! Bodies as they come.
ghost use Rattle.std.specs.Prelude.{◌≡◌, IfOk, option_map};
ghost use Rattle.serde_json.specs.View.{view};
ghost use Rattle.sent_objects.specs.Brief.{brief};
ghost use Rattle.sent_objects.specs.Object.{no_object};
ghost use Rattle.site_lists.specs.Paging.{value_in};
ghost use Rattle.edit_bodies.specs.Bodies.{form_of, object_in, sent, sent_of};

use content_rows::Text;
use edit_paths::Reads;
use sent_objects::SentObject;
use serde_json::Value;
use site_lists::query_value;
use std::alloc::{AllocError, Global};

/// What the body of a request says.
#[derive(Drop)]
pub enum Body {
    /// Nothing that is read.
    Nothing,
    /// An object of JSON.
    Object(SentObject),
    /// A form.
    Form(Form),
}

/// The fields of a form that somebody logs in with: of each the first, decoded, whatever its bytes.
/// <https://url.spec.whatwg.org/#application/x-www-form-urlencoded>
#[derive(Drop)]
pub struct Form {
    /// The value of `name`, where it is there.
    pub name: Option<Text>,
    /// The value of `pass`, where it is there.
    pub pass: Option<Text>,
}

/// What the bytes of a body say, by what is read of them. `Ok(None)` exactly where an object of JSON
/// is to be read and they are none (RFC 8259): no UTF-8, no JSON, more than 127 deep, or another
/// value. `Err` only where memory is wanting.
#[tactic(auto, unfolding(crate::specs::Bodies::sent, crate::specs::Bodies::sent_of))]
pub fn body_of(alloc: Global, reads: Reads, bytes: &[u8]) -> Result<Option<Body>, AllocError>
    ensures { IfOk result (λ body. option_map sent_of body ≡ sent reads bytes.now) }
{
    match reads {
        Reads::Nothing => Ok(Some(Body::Nothing)),
        Reads::Json => match SentObject::from_slice(alloc, bytes)? {
            Some(object) => Ok(Some(Body::Object(object))),
            None => Ok(None),
        },
        Reads::Form => Ok(Some(Body::Form(form_of(alloc, bytes)?))),
    }
}

/// The fields of a form.
fn form_of(alloc: Global, bytes: &[u8]) -> Result<Form, AllocError>
    ensures { IfOk result (λ form. form ≡ form_of bytes.now) }
{
    Ok(Form {
        name: first_value(alloc, bytes, b"name")?,
        pass: first_value(alloc, bytes, b"pass")?,
    })
}

/// The first value of a name in a form.
fn first_value(alloc: Global, bytes: &[u8], name: &[u8]) -> Result<Option<Text>, AllocError>
    ensures { IfOk result (λ value. value ≡ value_in bytes.now name.now) }
{
    match query_value(alloc, bytes, name)? {
        Some(value) => Ok(Some(Text::from_vec(value))),
        None => Ok(None),
    }
}

/// The object that a body is, in brief; of one that is none an empty one.
pub(crate) fn brief_in<'a>(body: &'a Body, empty: &'a Value) -> &'a Value
    requires { view empty.now ≡ no_object }
    ensures { view result.now ≡ brief (object_in body.now) }
{
    match body {
        Body::Object(object) => object.brief(),
        _ => empty,
    }
}
