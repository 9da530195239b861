//! The words of a line.

use crate::escape::unescape;
use std::alloc::{AllocError, Global};

/// Words, in order.
pub type Words<'a> = Vec<&'a [u8]>;

/// The first word of a line, and what follows the space after it.
pub fn first_word(line: &[u8]) -> (&[u8], &[u8]) {
    match line.iter().position(|byte| *byte == b' ') {
        Some(at) => {
            let (word, rest) = line.split_at(at);
            (word, rest.get(1..).unwrap_or(&[]))
        }
        None => (line, &[]),
    }
}

/// The words of a text, between spaces.
pub fn word_list<'a>(alloc: Global, text: &'a [u8]) -> Result<Words<'a>, AllocError> {
    let mut words = Vec::new(alloc);
    for word in text.split(|byte| *byte == b' ') {
        if !word.is_empty() {
            words.push(word)?;
        }
    }
    Ok(words)
}

/// The number that these digits are.
pub fn number(digits: &[u8]) -> Option<u64> {
    let mut number = 0_u64;
    for digit in digits {
        if !digit.is_ascii_digit() {
            return None;
        }
        number = number
            .checked_mul(10)?
            .checked_add(u64::from(*digit & 0x0f))?;
    }
    if digits.is_empty() {
        None
    } else {
        Some(number)
    }
}

/// The numbers of a text, between spaces; those that are none are left out.
pub fn numbers(alloc: Global, text: &[u8]) -> Result<Vec<u64>, AllocError> {
    let mut numbers = Vec::new(alloc);
    for word in text.split(|byte| *byte == b' ') {
        if let Some(value) = number(word) {
            numbers.push(value)?;
        }
    }
    Ok(numbers)
}

/// The words of a text, whose escapes are read. None where one is wrong.
pub fn arguments(alloc: Global, text: &[u8]) -> Result<Option<Vec<Vec<u8>>>, AllocError> {
    let mut arguments = Vec::new(alloc);
    for word in &word_list(alloc, text)? {
        let mut argument = Vec::new(alloc);
        if !unescape(word, &mut argument)? {
            return Ok(None);
        }
        arguments.push(argument)?;
    }
    Ok(Some(arguments))
}

/// Whether a piece stands in a text behind the first `passed` bytes of it. Where it does, `passed` goes up to the end of the
/// piece.
pub fn finds(text: &[u8], passed: &mut usize, piece: &[u8]) -> bool {
    let (_, rest) = text.split_at((*passed).min(text.len()));
    let found = rest
        .windows(piece.len().max(1))
        .position(|window| window == piece);
    match found {
        Some(at) => {
            *passed = passed.saturating_add(at).saturating_add(piece.len());
            true
        }
        None => piece.is_empty(),
    }
}
