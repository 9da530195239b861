//! Objects that were sent.
ghost use Rattle.std.specs.Prelude.{◌≡◌, ◌∷◌, IfOk, None, Some, false, option_map};
ghost use Rattle.std.specs.Bool.{MatchBool};
ghost use Rattle.json.specs.Token.{begin_object};
ghost use Rattle.serde_json.specs.View.{view};
ghost use Rattle.json_keys.specs.Order.{AllInOrder};
ghost use Rattle.sent_objects.specs.Brief.{brief};
ghost use Rattle.sent_objects.specs.Object.{object_in, object_of, opens_object, text_object};
ghost use Rattle.sent_objects.specs.Reads.{IsRefusal};

use crate::inside::Fault;
use crate::members::{Key, read_members};
use json::{Reader, Scratch, Token};
use serde_json::Value;
use std::alloc::{AllocError, Global};
use std::marker::Model;

/// How deep arrays and objects may nest inside an object.
const DEPTH: usize = 126;

/// An object of JSON that was sent: contracts see its text, and so all of it, while only that is read
/// which edits are judged by.
#[derive(Drop)]
pub struct SentObject {
    text: Vec<u8>,
    kept: Value,
}

impl Model for SentObject {
    ghost use Rattle.std.specs.Prelude.{◌≡◌, List, ℕ};
    ghost use Rattle.serde_json.specs.View.{view as view_of};
    ghost use Rattle.sent_objects.specs.Brief.{brief};
    ghost use Rattle.sent_objects.specs.Object.{object_in};

    ghost Value = { List ℕ };

    ghost view = { λ o. o.text.items };

    ghost invariant = { λ o. view_of o.kept ≡ brief (object_in o.text.items) };
}

impl SentObject {
    /// The object of JSON that bytes are (RFC 8259); `Ok(None)` exactly where they are none: no
    /// UTF-8, no JSON, more than 127 deep, a number larger than every float, or another value. Of a
    /// key that comes twice the last value stands. `Err` only where memory is wanting.
    pub fn from_slice(alloc: Global, bytes: &[u8]) -> Result<Option<SentObject>, AllocError>
        ensures { IfOk result (λ o. option_map object_in o ≡ object_of bytes.now) }
    {
        match brief_of(alloc, bytes)? {
            Some(kept) => {
                let mut text = Vec::new(alloc);
                text.extend_from_slice(bytes)?;
                Ok(Some(SentObject { text, kept }))
            }
            None => Ok(None),
        }
    }

    /// The object in brief: of all keys those that some edit knows, and the least of the others, with
    /// `null` for its value; of their values the first 257 items of a list and no values that stand
    /// deeper than any edit has them.
    pub fn brief(&self) -> &Value
        ensures value { view result.now ≡ brief (object_in self.now) }
        ensures order { AllInOrder (object_in self.now) }
    {
        &self.kept
    }
}

/// The object in brief that bytes are; none where they are none.
fn brief_of(alloc: Global, bytes: &[u8]) -> Result<Option<Value>, AllocError>
    ensures { IfOk result (λ o. option_map view o ≡ option_map brief (object_of bytes.now)) }
{
    match simdutf8::basic::from_utf8(bytes) {
        Ok(text) => match read_text(alloc, text) {
            Ok(value) => Ok(Some(value)),
            Err(Fault::Invalid) => Ok(None),
            Err(Fault::OutOfMemory) => Err(AllocError),
        },
        Err(_) => Ok(None),
    }
}

/// The object in brief that a text is.
fn read_text(alloc: Global, text: &str) -> Result<Value, Fault>
    ensures ok { IfOk result (λ v. option_map brief (text_object text.now) ≡ Some (view v)) }
    ensures err { IsRefusal result → text_object text.now ≡ None }
{
    let mut scratch = Scratch::new(alloc);
    let mut reader = Reader::new(text, &mut scratch)?;
    if !takes_brace(&mut reader) {
        return Err(Fault::Invalid);
    }
    let members = read_members::<Key>(alloc, &mut reader, DEPTH)?;
    if reader.next().is_some() {
        return Err(Fault::Invalid);
    }
    Ok(Value::Object(members))
}

/// Takes the brace that opens an object, where one is next.
fn takes_brace(reader: &mut Reader<'_>) -> bool
    ensures { MatchBool result (reader.old ≡ begin_object ∷ reader.new) (opens_object reader.old ≡ false) }
{
    match reader.next() {
        Some(Token::BeginObject) => true,
        _ => false,
    }
}
