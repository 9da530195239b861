//! Bytes that are written with escapes.

use std::alloc::AllocError;

/// What of an escape has come.
#[derive(Clone, Copy)]
enum Part {
    Nothing,
    Backslash,
    Hex,
    HexAnd(u8),
}

/// The value of a digit to base 16.
fn digit(byte: u8) -> Option<u8> {
    match byte {
        b'0'..=b'9' => Some(byte & 0x0f),
        b'a'..=b'f' => Some((byte & 0x0f).wrapping_add(9)),
        _ => None,
    }
}

/// What a letter stands for after a backslash: a byte, or nothing.
fn letter(byte: u8) -> Option<Option<u8>> {
    match byte {
        b'r' => Some(Some(b'\r')),
        b'n' => Some(Some(b'\n')),
        b't' => Some(Some(b'\t')),
        b'0' => Some(Some(0)),
        b'\\' => Some(Some(b'\\')),
        b'-' => Some(None),
        _ => None,
    }
}

/// What of an escape has come after one byte more, and the byte that is whole, if one is. None where it is no escape.
fn step(part: Part, byte: u8) -> Option<(Part, Option<u8>)> {
    match part {
        Part::Nothing if byte == b'\\' => Some((Part::Backslash, None)),
        Part::Nothing => Some((Part::Nothing, Some(byte))),
        Part::Backslash if byte == b'x' => Some((Part::Hex, None)),
        Part::Backslash => Some((Part::Nothing, letter(byte)?)),
        Part::Hex => Some((Part::HexAnd(digit(byte)?), None)),
        Part::HexAnd(high) => {
            let whole = high.wrapping_mul(16) | digit(byte)?;
            Some((Part::Nothing, Some(whole)))
        }
    }
}

/// Appends the bytes that a text with escapes stands for. False where an escape is wrong or has no end.
pub(crate) fn unescape(text: &[u8], out: &mut Vec<u8>) -> Result<bool, AllocError> {
    let mut part = Part::Nothing;
    for byte in text {
        let Some((later, whole)) = step(part, *byte) else {
            return Ok(false);
        };
        if let Some(whole) = whole {
            out.push(whole)?;
        }
        part = later;
    }
    Ok(matches!(part, Part::Nothing))
}
