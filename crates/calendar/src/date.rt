// Dates and their days, each way in a fixed number of steps.
ghost use Rattle.std.specs.Prelude.{◌≡◌, true, false, pred, ◌≤◌, ◌<◌, Ok};
ghost use Rattle.calendar.specs.Year.{served};
ghost use Rattle.calendar.specs.Date.{month_length, days_of_months, MonthOf, is_date, day_number, day_in_calendar, day_in_year, day_of_date};
ghost use Rattle.calendar.specs.Date.{IsDateOf, IsDateInStyle, IsDateOfDay};
ghost use Rattle.calendar.specs.Span.{in_span};
ghost use Rattle.calendar.specs.Style.{dates_by};

use crate::range::is_between;
use crate::refusal::Refusal;
use crate::span::{SpanDay, day_within};
use crate::style::{Calendar, Style};
use crate::year::NamedYear;

// A year, a month of it and a day of that month.
#[derive(Clone, Copy, PartialEq, Eq)]
pub struct CalendarDate {
    pub year: u64,
    pub month: u64,
    pub day: u64,
}

// A month by its number.
#[derive(Clone, Copy)]
struct Month {
    number: u64,
    ghost in_range: { (1 ≤ number) × (number ≤ 12) },
}

// The days of each month of a common year.
const MONTH_LENGTHS: [u8; 12] = [31, 28, 31, 30, 31, 30, 31, 31, 30, 31, 30, 31];

impl Month {
    // The days of the month.
    fn length(self, leap_year: bool) -> u64
        ensures { result ≡ month_length leap_year self.number }
    {
        if self.number == 2 && leap_year {
            return 29;
        }
        u64::from(MONTH_LENGTHS[(self.number - 1) as usize])
    }

    // The days of a common year before the month.
    #[tactic(auto, unfolding(crate::specs::Date::days_of_months))]
    fn common_before(self) -> u64
        ensures { result ≡ days_of_months false (pred self.number) }
    {
        match self.number {
            1 => 0,
            2 => 31,
            3 => 59,
            4 => 90,
            5 => 120,
            6 => 151,
            7 => 181,
            8 => 212,
            9 => 243,
            10 => 273,
            11 => 304,
            _ => 334,
        }
    }

    // The days of a year before the month.
    #[tactic(auto, using(crate::proofs::date::Months::leap_day, crate::proofs::date::Months::months_small))]
    fn days_before(self, leap_year: bool) -> u64
        ensures { result ≡ days_of_months leap_year (pred self.number) }
    {
        let n = self.common_before();
        if leap_year && self.number > 2 {
            return n + 1;
        }
        n
    }
}

// Whether a year has a month and a day of that month.
#[tactic(auto, using(crate::proofs::date::Dates::date_told), unfolding(crate::specs::Date::is_date))]
fn is_date(calendar: Calendar, year: u64, month: u64, day: u64) -> bool
    ensures { result ≡ is_date calendar year month day }
{
    if !is_between(1, month, 12) {
        return false;
    }
    // Every month has these, so neither its length nor the year matters.
    if is_between(1, day, 28) {
        return true;
    }
    let its_month = Month { number: month };
    is_between(1, day, its_month.length(calendar.is_leap(year)))
}

// The day number of a date.
#[tactic(auto, using(crate::proofs::date::Dates::date_bounds, crate::proofs::span::Laws::served_small, crate::proofs::span::Laws::new_year_small))]
fn day_number(calendar: Calendar, year: u64, month: u64, day: u64) -> u64
    requires { (served calendar year ≡ true) × (is_date calendar year month day ≡ true) }
    ensures { result ≡ day_number calendar year month day }
{
    let behind_february = if month > 2 { 1 } else { 0 };
    let start = calendar.new_year(year + behind_february);
    // The quotient is the days before the month if February had 30, and a year 367: behind February a day counts back from the next new year.
    start + (979 * month - 966) / 32 + (day - 1) - 367 * behind_february
}

// The day of a date of a calendar. The date comes as the numbers that C hands in, which go in registers, as a record does not.
#[tactic(auto, unfolding(crate::specs::Date::day_in_calendar, crate::specs::Span::within))]
pub fn day_in_calendar(calendar: Calendar, year: u64, month: u64, day: u64) -> Result<u32, Refusal>
    ensures { result ≡ day_in_calendar calendar year month day }
{
    if !calendar.is_served(year) {
        return Err(Refusal::Year);
    }
    if !is_date(calendar, year, month, day) {
        return Err(Refusal::Date);
    }
    day_within(calendar, day_number(calendar, year, month, day))
}

// The day of a date of a named year.
pub fn day_in_year(named: NamedYear, month: u64, day: u64) -> Result<u32, Refusal>
    ensures { result ≡ day_in_year named month day }
{
    day_in_calendar(named.style.dates_by(), named.year, month, day)
}

// Date to day: refused by 1, 4, 5 or 6.
pub fn day_of_date(style: u64, year: u64, month: u64, day: u64) -> Result<u32, Refusal>
    ensures { result ≡ day_of_date style year month day }
{
    day_in_calendar(Style::try_from(style)?.dates_by(), year, month, day)
}

// The month that holds a day of a year, the year's days counted from 0.
#[tactic(auto, using(crate::proofs::date::Months::month_found))]
fn month_at(leap_year: bool, day_of_year: u64) -> Month
    requires { day_of_year < days_of_months leap_year 12 }
    ensures { MonthOf leap_year day_of_year result.number }
{
    let estimate = day_of_year / 32 + 1;
    if estimate == 12 {
        return Month { number: 12 };
    }
    let next = Month {
        number: estimate + 1,
    };
    if next.days_before(leap_year) <= day_of_year {
        return next;
    }
    Month { number: estimate }
}

// The date of a day of the span.
#[tactic(auto, using(crate::proofs::date::Laws::date_found))]
fn date_in_calendar(calendar: Calendar, day: u64) -> CalendarDate
    requires { in_span calendar day ≡ true }
    ensures { IsDateOf calendar day (Ok result) }
{
    let year = calendar.year_at(day);
    let day_of_year = day - calendar.new_year(year);
    let leap_year = calendar.is_leap(year);
    let month = month_at(leap_year, day_of_year);
    CalendarDate {
        year,
        month: month.number,
        day: day_of_year - month.days_before(leap_year) + 1,
    }
}

impl SpanDay {
    // Its date.
    pub fn date(self) -> CalendarDate
        ensures { IsDateOf (dates_by self.style) self.number (Ok result) }
    {
        date_in_calendar(self.style.dates_by(), u64::from(self.number))
    }
}

// The date of a day of a style.
pub fn date_in_style(style: Style, day: u64) -> Result<CalendarDate, Refusal>
    ensures { IsDateInStyle style day result }
{
    Ok(SpanDay::new(style, day)?.date())
}

// Day to date: refused by 1 or 6.
pub fn date_of_day(style: u64, day: u64) -> Result<CalendarDate, Refusal>
    ensures { IsDateOfDay style day result }
{
    date_in_style(Style::try_from(style)?, day)
}
