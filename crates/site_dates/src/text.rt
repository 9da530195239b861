//! The texts of moments, in the form of RFC 3339.
//! <https://www.rfc-editor.org/rfc/rfc3339#section-5.6>
ghost use Rattle.std.specs.Prelude.{◌≡◌, ◌≤◌, ◌<◌, ◌+◌, ◌/◌, ◌%◌, IfOk};
ghost use Rattle.site_dates.specs.Dates.{date_text_of, moment_text_of, digits_of_date, digits_of_time};

use crate::civil::{CivilDate, ClockTime, date_of, time_of};
use std::alloc::{AllocError, Global};

/// The date of a moment, as `2000-02-29`. A moment above 4,102,444,800 is shown as that one, which
/// is `2100-01-01`. `Err` only where memory is wanting.
pub fn date_text(alloc: Global, moment: u64) -> Result<Vec<u8>, AllocError>
    ensures { IfOk result (λ text. text.items ≡ date_text_of moment) }
{
    Vec::from_slice(alloc, &date_digits(date_of(moment)))
}

/// The date and the time of a moment, as `2000-02-29T23:59:59Z`. A moment above 4,102,444,800 is
/// shown as that one, which is `2100-01-01T00:00:00Z`. `Err` only where memory is wanting.
pub fn moment_text(alloc: Global, moment: u64) -> Result<Vec<u8>, AllocError>
    ensures { IfOk result (λ text. text.items ≡ moment_text_of moment) }
{
    let mut text = date_text(alloc, moment)?;
    text.push(b'T')?;
    text.extend_from_slice(&time_digits(time_of(moment)))?;
    text.push(b'Z')?;
    Ok(text)
}

/// A date as `2000-02-29`.
fn date_digits(date: CivilDate) -> [u8; 10]
    requires { (date.year < 10_000) × (date.month ≤ 12) × (date.day ≤ 31) }
    ensures { result ≡ digits_of_date date }
{
    let CivilDate { year, month, day } = date;
    let (century, rest) = ((year / 100) as u8, (year % 100) as u8);
    [
        tens(century),
        ones(century),
        tens(rest),
        ones(rest),
        b'-',
        tens(month),
        ones(month),
        b'-',
        tens(day),
        ones(day),
    ]
}

/// A time of day as `23:59:59`.
fn time_digits(time: ClockTime) -> [u8; 8]
    requires { (time.hour < 24) × (time.minute < 60) × (time.second < 60) }
    ensures { result ≡ digits_of_time time }
{
    let ClockTime {
        hour,
        minute,
        second,
    } = time;
    [
        tens(hour),
        ones(hour),
        b':',
        tens(minute),
        ones(minute),
        b':',
        tens(second),
        ones(second),
    ]
}

/// The first digit of a number below 100, which is written with two.
fn tens(number: u8) -> u8
    requires { number < 100 }
    ensures { result ≡ 48 + number / 10 }
{
    b'0' + number / 10
}

/// The second digit of a number below 100.
fn ones(number: u8) -> u8
    requires { number < 100 }
    ensures { result ≡ 48 + number % 10 }
{
    b'0' + number % 10
}
