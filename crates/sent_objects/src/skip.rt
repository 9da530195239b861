//! Values that are passed over: they are checked, and nothing of them is kept.
ghost use Rattle.std.specs.Prelude.{◌≡◌, ◌<◌, None, OnErr, OnOk, length};
ghost use Rattle.json.specs.Json.{items, members, value};
ghost use Rattle.serde_json.specs.Data.{no_members};
ghost use Rattle.serde_json.specs.Read.{converted, of_items, of_json, of_members};
ghost use Rattle.sent_objects.specs.Reads.{IsRead};

use crate::number::number_of;
use json::{Invalid, Reader, Token};

/// Passes over a value, whose arrays and objects may nest so deep.
#[cycle(skip)]
pub(crate) fn skip(reader: &mut Reader<'_>, depth: usize) -> Result<(), Invalid>
    ensures ok { OnOk result (IsRead (converted of_json (value depth reader.old)) reader.new) }
    ensures shorter { OnOk result (length reader.new < length reader.old) }
    ensures err { OnErr result (converted of_json (value depth reader.old) ≡ None) }
{
    let token = reader.next().ok_or(Invalid)?;
    match token {
        Token::String(_) => Ok(()),
        Token::Bool(_) => Ok(()),
        Token::Null => Ok(()),
        Token::Number(text) => match number_of(text) {
            Some(_) => Ok(()),
            None => Err(Invalid),
        },
        Token::EndObject | Token::EndArray | Token::Key(_) | Token::Bad => Err(Invalid),
        Token::BeginArray => {
            if depth == 0 {
                return Err(Invalid);
            }
            skip_items(reader, depth - 1)
        }
        Token::BeginObject => {
            if depth == 0 {
                return Err(Invalid);
            }
            skip_members(reader, depth - 1)
        }
    }
}

/// Passes over the items of an array, and its end.
#[cycle(skip)]
pub(crate) fn skip_items(reader: &mut Reader<'_>, depth: usize) -> Result<(), Invalid>
    ensures ok { OnOk result (IsRead (converted of_items (items (value depth) (length reader.old) reader.old)) reader.new) }
    ensures shorter { OnOk result (length reader.new < length reader.old) }
    ensures err { OnErr result (converted of_items (items (value depth) (length reader.old) reader.old) ≡ None) }
{
    'items: while !reader.take_end_array() {
        skip(reader, depth)?;
    }
    Ok(())
}

/// Passes over the members of an object, and its end.
#[cycle(skip)]
pub(crate) fn skip_members(reader: &mut Reader<'_>, depth: usize) -> Result<(), Invalid>
    ensures ok { OnOk result (IsRead (converted (λ ms. of_members ms no_members) (members (value depth) (length reader.old) reader.old)) reader.new) }
    ensures shorter { OnOk result (length reader.new < length reader.old) }
    ensures err { OnErr result (converted (λ ms. of_members ms no_members) (members (value depth) (length reader.old) reader.old) ≡ None) }
{
    'members: while let Some(_) = reader.next_key()? {
        skip(reader, depth)?;
    }
    Ok(())
}
