// Years of a calendar: leap or not, served or not, the day on which one begins, the one that holds a day.
ghost use Rattle.std.specs.Prelude.{◌≡◌, true, ◌+◌, ◌≤◌, ◌<◌};
ghost use Rattle.calendar.specs.Span.{in_span};
ghost use Rattle.calendar.specs.Year.{leap, first_year, served, new_year, YearOf};

use crate::range::is_between;
use crate::style::{Calendar, Style};

// The day number of 1 January 1 in each calendar.
const J_NEW_YEAR: u64 = 1721424;

const G_NEW_YEAR: u64 = 1721426;

// A style and a year of it. Where a call is not put inside its caller, the two go by themselves, and so do a calendar and a year:
// in registers, as a record does not.
#[derive(Clone, Copy, PartialEq, Eq)]
pub struct NamedYear {
    pub style: Style,
    pub year: u64,
}

impl Calendar {
    // Whether the year is leap.
    pub fn is_leap(self, year: u64) -> bool
        ensures { result ≡ leap self year }
    {
        match self {
            Calendar::Julian => year % 4 == 0,
            Calendar::Gregorian => {
                if year % 400 == 0 {
                    return true;
                }
                if year % 100 == 0 {
                    return false;
                }
                year % 4 == 0
            }
        }
    }

    // The first year that is served.
    fn first_year(self) -> u64
        ensures { result ≡ first_year self }
    {
        match self {
            Calendar::Julian => 1,
            Calendar::Gregorian => 1582,
        }
    }

    // Whether the year is served.
    #[tactic(auto, unfolding(crate::specs::Year::served))]
    pub(crate) fn is_served(self, year: u64) -> bool
        ensures { result ≡ served self year }
    {
        is_between(self.first_year(), year, 9999)
    }

    // The day number of 1 January, in closed form.
    #[tactic(auto, using(crate::proofs::year::Laws::new_year_at))]
    pub(crate) fn new_year(self, year: u64) -> u64
        requires { (1 ≤ year) × (year ≤ 10000) }
        ensures { result ≡ new_year self year }
    {
        let n = year - 1;
        let first = match self {
            Calendar::Julian => J_NEW_YEAR,
            Calendar::Gregorian => G_NEW_YEAR,
        };
        // The years before that end a century, of which the calendar leaves out the leap day, but for each fourth; J leaves out none.
        let hundreds = match self {
            Calendar::Julian => 0,
            Calendar::Gregorian => n / 100,
        };
        first + 365 * n + n / 4 + hundreds / 4 - hundreds
    }

    // An estimate of the year that holds a day of the span: that year or the one before. The day comes by its calendar and is no SpanDay,
    // here and in date_in_calendar, since the proof over what dates_by returns did not close.
    #[tactic(auto, using(crate::proofs::span::Laws::span_range))]
    fn year_estimate(self, day: u64) -> u64
        requires { in_span self day ≡ true }
        ensures { (1 ≤ result) × (result ≤ 9999) × (new_year self result ≤ day) × (day < new_year self (result + 2)) }
    {
        match self {
            Calendar::Julian => (day - J_NEW_YEAR) * 4 / 1461 + 1,
            Calendar::Gregorian => (day - G_NEW_YEAR) * 400 / 146097 + 1,
        }
    }

    // The year that holds a day of the span.
    pub(crate) fn year_at(self, day: u64) -> u64
        requires { in_span self day ≡ true }
        ensures { YearOf self day result }
    {
        let estimate = self.year_estimate(day);
        let next = self.new_year(estimate + 1);
        if next <= day {
            return estimate + 1;
        }
        estimate
    }
}
