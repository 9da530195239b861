//! Ten rows a page, and which page a request asks for.
ghost use Rattle.std.specs.Prelude.{◌≡◌, ◌≤◌, ◌&&◌, nat_le, IfOk, length};
ghost use Rattle.std.specs.List.{list_all};
ghost use Rattle.std.specs.Option.{option_copied};
ghost use Rattle.std.specs.Str.Parse.{AllDigits, digits_value};
ghost use Rattle.site_lists.specs.Paging.{
  page_asked,
  page_at,
  page_of,
  is_digit,
  is_page_text,
  last_page,
};

use crate::query::query_value;
use content_state::Ask;
use std::alloc::{AllocError, Global};

/// How many rows a page has.
const ROWS: usize = 10;

/// A page of some rows: those from `start` up to, and without, `end`.
#[derive(Clone, Copy, Debug)]
pub struct Page {
    /// Its number, counted from 0.
    pub number: usize,
    /// Where its first row stands among all.
    pub start: usize,
    /// Where the row after its last stands among all.
    pub end: usize,
    /// Whether no page comes before it.
    pub is_first: bool,
    /// Whether no page comes after it.
    pub is_last: bool,
}

/// The page of so many rows that a request asks for, by the first `page` of its query. `Err` only
/// where memory is wanting.
#[tactic(auto, unfolding(crate::specs::Paging::page_name))]
pub fn page_of(alloc: Global, len: usize, ask: &Ask) -> Result<Page, AllocError>
    ensures exact { IfOk result (λ page. page ≡ page_of len ask.now.query) }
    ensures within { IfOk result (λ page. (page.start ≤ page.end) × (page.end ≤ len)) }
{
    let value = query_value(alloc, ask.query.as_slice(), b"page")?;
    let asked = match &value {
        Some(text) => page_asked(Some(text.as_slice())),
        None => page_asked(None),
    };
    Ok(page_at(len, asked))
}

/// The page, counted from 0, that the value of `page` asks for: 0 where there is none, and for
/// anything but one to nine digits.
pub fn page_asked(value: Option<&[u8]>) -> usize
    ensures { result ≡ page_asked (option_copied value.entry) }
{
    match value {
        Some(text) if is_page_text(text) => digits_value(text),
        _ => 0,
    }
}

/// Whether a text is one to nine digits.
fn is_page_text(text: &[u8]) -> bool
    ensures { result ≡ is_page_text text.now }
{
    is_page_length(text.len()) && is_digits(text)
}

fn is_page_length(len: usize) -> bool
    ensures { result ≡ (nat_le 1 len && nat_le len 9) }
{
    1 <= len && len <= 9
}

fn is_digits(text: &[u8]) -> bool
    ensures { result ≡ list_all is_digit text.now }
{
    text.iter().all(|byte| is_digit(*byte))
}

fn is_digit(byte: u8) -> bool
    ensures { result ≡ is_digit byte }
{
    48 <= byte && byte <= 57
}

/// The number that at most nine digits write.
fn digits_value(text: &[u8]) -> usize
    requires short { length text.now ≤ 9 }
    requires digits { AllDigits 10 text.now }
    ensures { result ≡ digits_value 10 text.now }
{
    let mut number = 0;
    'digits: for byte in text {
        number = number * 10 + usize::from(*byte - b'0');
    }
    number
}

/// A page of so many rows, ten a page; one past the last is the last.
pub fn page_at(len: usize, asked: usize) -> Page
    ensures exact { result ≡ page_at len asked }
    ensures within { (result.start ≤ result.end) × (result.end ≤ len) }
{
    let last = last_page(len);
    let number = asked.min(last);
    let start = ROWS * number;
    Page {
        number,
        start,
        end: start + ROWS.min(len - start),
        is_first: number == 0,
        is_last: number == last,
    }
}

/// The number of the last page of so many rows, counted from 0; no rows fill one page.
pub fn last_page(len: usize) -> usize
    ensures { result ≡ last_page len }
{
    len.saturating_sub(1) / ROWS
}
