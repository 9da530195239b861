//! The civil date and the time of day of a moment, which `jiff` computes.
ghost use Rattle.std.specs.Prelude.{◌≡◌, ◌≤◌, ◌<◌, ◌*◌, pos};
ghost use Rattle.jiff.specs.Words.{civil_nanos};
ghost use Rattle.site_dates.specs.Dates.{date_of_moment, time_of_moment};

use jiff::Timestamp;
use jiff::civil::DateTime;
use jiff::tz::Offset;

/// The last moment that is shown as itself: 2100-01-01T00:00:00Z.
pub const LAST_MOMENT: u64 = 4_102_444_800;

/// A day of the calendar: the year, the month from 1, and the day of the month from 1.
#[derive(Clone, Copy, Debug)]
pub struct CivilDate {
    pub year: u16,
    pub month: u8,
    pub day: u8,
}

/// A second of a day: the hour below 24, the minute and the second below 60.
#[derive(Clone, Copy, Debug)]
pub struct ClockTime {
    pub hour: u8,
    pub minute: u8,
    pub second: u8,
}

/// The date of a moment in UTC; of one above [`LAST_MOMENT`] the date of that.
pub fn date_of(moment: u64) -> CivilDate
    ensures same { result ≡ date_of_moment moment }
    ensures fits { (result.year < 10_000) × (result.month ≤ 12) × (result.day ≤ 31) }
{
    let date = shown_at(moment.min(LAST_MOMENT)).date();
    CivilDate {
        year: date.year() as u16,
        month: date.month() as u8,
        day: date.day() as u8,
    }
}

/// The time of day of a moment in UTC; of one above [`LAST_MOMENT`] the time of that.
pub fn time_of(moment: u64) -> ClockTime
    ensures same { result ≡ time_of_moment moment }
    ensures fits { (result.hour < 24) × (result.minute < 60) × (result.second < 60) }
{
    let time = shown_at(moment.min(LAST_MOMENT)).time();
    ClockTime {
        hour: time.hour() as u8,
        minute: time.minute() as u8,
        second: time.second() as u8,
    }
}

/// What a clock in UTC shows at a moment.
fn shown_at(moment: u64) -> DateTime
    requires { moment ≤ LAST_MOMENT }
    ensures { civil_nanos result ≡ pos (moment * 1_000_000_000) }
{
    let Ok(timestamp) = Timestamp::from_second(moment as i64) else {
        unreachable!();
    };
    Offset::UTC.to_datetime(timestamp)
}
