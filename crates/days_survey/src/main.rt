// Every day of each style's span, walked in order with a date and a weekday of the program's own
// counting, by styles' numbers as a user has them, and held against day to date, date to day and weekday. What cannot be printed is
// dropped, and the status stays 0.
#![tactic(auto)]

use calendar::date::{CalendarDate, date_of_day, day_of_date};
use calendar::weekday::weekday_of_day;
use std::fmt;
use std::ops::RangeInclusive;

const JULIAN: u64 = 1;

const GREGORIAN: u64 = 2;

const OLD_EASTER: u64 = 3;

fn has_leap_day(style: u64, year: u64) -> bool {
    year % 4 == 0 && (style == JULIAN || year % 100 != 0 || year % 400 == 0)
}

fn days_of_month(style: u64, year: u64, month: u64) -> u64 {
    match month {
        2 if has_leap_day(style, year) => 29,
        2 => 28,
        4 | 6 | 9 | 11 => 30,
        _ => 31,
    }
}

// A date and its weekday, reached by adding one day at a time.
#[derive(Clone, Copy)]
struct Walked {
    date: CalendarDate,
    weekday: u32,
}

impl Walked {
    fn new(year: u64, month: u64, day: u64, weekday: u32) -> Self {
        Walked {
            date: CalendarDate { year, month, day },
            weekday,
        }
    }

    // The next day of a style.
    fn day_after(self, style: u64) -> Self {
        let CalendarDate { year, month, day } = self.date;
        let weekday = self.weekday % 7 + 1;
        if day < days_of_month(style, year, month) {
            return Walked::new(year, month, day + 1, weekday);
        }
        if month < 12 {
            return Walked::new(year, month + 1, 1, weekday);
        }
        Walked::new(year.wrapping_add(1), 1, 1, weekday)
    }
}

// How many days were walked, and how many agree with each call.
#[derive(Clone, Copy, Default)]
struct Tally {
    days: u64,
    dates: u64,
    days_of_dates: u64,
    weekdays: u64,
}

impl Tally {
    // Counts a day of a style. No count comes near 2^64, where it would wrap.
    fn count(&mut self, style: u64, number: u32, walked: Walked) {
        let Walked { date, weekday } = walked;
        let day = u64::from(number);
        let same_date = date_of_day(style, day) == Ok(date);
        let same_day = day_of_date(style, date.year, date.month, date.day) == Ok(number);
        let same_weekday = weekday_of_day(style, day) == Ok(weekday);
        self.days = self.days.wrapping_add(1);
        self.dates = self.dates.wrapping_add(u64::from(same_date));
        self.days_of_dates = self.days_of_dates.wrapping_add(u64::from(same_day));
        self.weekdays = self.weekdays.wrapping_add(u64::from(same_weekday));
    }
}

impl fmt::Display for Tally {
    fn fmt<W: fmt::Write>(&self, f: &mut fmt::Formatter<W>) -> fmt::Result {
        write!(
            f,
            "{} days, {} dates, {} days of dates, {} weekdays",
            self.days, self.dates, self.days_of_dates, self.weekdays
        )
    }
}

// The tally of the days from `start` on, and the day after the last.
fn survey(style: u64, days: RangeInclusive<u32>, start: Walked) -> (Tally, Walked) {
    let mut tally = Tally::default();
    let mut walked = start;
    for number in days {
        tally.count(style, number, walked);
        walked = walked.day_after(style);
    }
    (tally, walked)
}

fn main(rt: HostRuntime) {
    // 1 January 1 J was a Saturday, and 15 October 1582 G, where O begins too, a Friday.
    let julian_start = Walked::new(1, 1, 1, 6);
    let gregorian_start = Walked::new(1582, 10, 15, 5);
    for (letter, style, days, start) in [
        ('J', JULIAN, 1721424..=5373557, julian_start),
        ('G', GREGORIAN, 2299161..=5373484, gregorian_start),
        ('O', OLD_EASTER, 2299161..=5373484, gregorian_start),
    ] {
        let (tally, next) = survey(style, days, start);
        let CalendarDate { year, month, day } = next.date;
        let _ = println!(rt; "{letter}: {tally}");
        let _ = println!(rt; "{letter}: the day after the last is {day}.{month} {year}");
    }
}
