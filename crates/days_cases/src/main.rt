// Calls of date to day, day to date, weekday and distance, each printed with its arguments and its
// answer: the ends of the spans and their neighbours, leap days, refusals, and numbers up to
// 2^64 - 1. A day or its refusal is one number; a weekday or a distance is two, the refusal or 0
// and the value or 0; a date that is refused is the refusal's number alone. What cannot be printed is
// dropped, and the status stays 0.
#![tactic(auto)]

use calendar::date::{date_of_day, day_of_date};
use calendar::distance::distance_of_dates;
use calendar::refusal::{number_or_refusal, refusal_or_zero};
use calendar::weekday::weekday_of_day;
use std::ops::RangeInclusive;

const JULIAN: u64 = 1;

const GREGORIAN: u64 = 2;

const OLD_EASTER: u64 = 3;

const STYLES: [u64; 3] = [JULIAN, GREGORIAN, OLD_EASTER];

// One more than the largest 32-bit number: a number that is cut on its way in loses it.
const CUT: u64 = 1 << 32;

// The style, year, month and day that a call is given, whether they name a date or not.
type Given = (u64, u64, u64, u64);

fn ask_day(rt: &impl Print, (style, year, month, day): Given) {
    let answer = number_or_refusal(day_of_date(style, year, month, day));
    let _ = println!(rt; "day {style} {year} {month} {day}: {answer}");
}

fn ask_date(rt: &impl Print, style: u64, day: u64) {
    let _ = match date_of_day(style, day) {
        Ok(date) => println!(rt;
            "date {style} {day}: {}.{} {}",
            date.day, date.month, date.year
        ),
        Err(refusal) => println!(rt; "date {style} {day}: {}", u32::from(refusal)),
    };
}

fn ask_weekday(rt: &impl Print, style: u64, day: u64) {
    let answer = weekday_of_day(style, day);
    let refusal = refusal_or_zero(answer);
    let _ = println!(rt; "weekday {style} {day}: {refusal} {}", answer.unwrap_or(0));
}

fn ask_distance(rt: &impl Print, first: Given, second: Given) {
    let (style1, year1, month1, day1) = first;
    let (style2, year2, month2, day2) = second;
    let answer = distance_of_dates(style1, year1, month1, day1, style2, year2, month2, day2);
    let refusal = refusal_or_zero(answer);
    let _ = println!(rt;
        "distance {style1} {year1} {month1} {day1} {style2} {year2} {month2} {day2}: {refusal} {}",
        answer.unwrap_or(0)
    );
}

// The two calls that take a day.
fn ask_date_and_weekday(rt: &impl Print, style: u64, day: u64) {
    ask_date(rt, style, day);
    ask_weekday(rt, style, day);
}

fn ask_days(rt: &impl Print, style: u64, days: RangeInclusive<u64>) {
    for day in days {
        ask_date_and_weekday(rt, style, day);
    }
}

// A day and its neighbours.
fn ask_around(rt: &impl Print, style: u64, day: u64) {
    ask_days(rt, style, day.wrapping_sub(1)..=day.wrapping_add(1));
}

fn ask_day_in_each_style(rt: &impl Print, year: u64, month: u64, day: u64) {
    for style in STYLES {
        ask_day(rt, (style, year, month, day));
    }
}

// The distance and the way back.
fn ask_both_distances(rt: &impl Print, first: Given, second: Given) {
    ask_distance(rt, first, second);
    ask_distance(rt, second, first);
}

// The days that the scope names.
fn days_to_check_by(rt: &impl Print) {
    ask_day(rt, (JULIAN, 1900, 2, 29));
    ask_date_and_weekday(rt, JULIAN, 2415092);
    ask_day(rt, (GREGORIAN, 1900, 2, 29));
    ask_day(rt, (GREGORIAN, 1582, 2, 29));
    ask_day(rt, (GREGORIAN, 1582, 10, 14));
    ask_day(rt, (GREGORIAN, 1582, 10, 15));
    ask_day(rt, (JULIAN, 1582, 10, 5));
    ask_distance(rt, (JULIAN, 1582, 10, 5), (GREGORIAN, 1582, 10, 15));
    ask_day(rt, (JULIAN, 1225, 3, 30));
    ask_date_and_weekday(rt, JULIAN, 2168578);
    ask_day(rt, (GREGORIAN, 1587, 4, 7));
    ask_date_and_weekday(rt, GREGORIAN, 2300796);
    ask_day(rt, (JULIAN, 1587, 4, 25));
    ask_date_and_weekday(rt, JULIAN, 2300824);
}

fn julian_span_ends(rt: &impl Print) {
    for (year, month, day) in [
        (0, 12, 31),
        (1, 1, 1),
        (1, 1, 2),
        (9999, 12, 30),
        (9999, 12, 31),
        (10000, 1, 1),
    ] {
        ask_day(rt, (JULIAN, year, month, day));
    }
    for day in [1721424, 5373557] {
        ask_around(rt, JULIAN, day);
    }
}

// The ends of the span of a style with Gregorian dates.
fn gregorian_span_ends(rt: &impl Print, style: u64) {
    for (year, month, day) in [
        (1582, 10, 13),
        (1582, 10, 14),
        (1582, 10, 15),
        (1582, 10, 16),
        (9999, 12, 30),
        (9999, 12, 31),
        (10000, 1, 1),
    ] {
        ask_day(rt, (style, year, month, day));
    }
    for day in [2299161, 5373484] {
        ask_around(rt, style, day);
    }
}

// The ends of one style's span in another style, and the smallest numbers.
fn days_of_one_style(rt: &impl Print) {
    ask_days(rt, JULIAN, 2299160..=2299161);
    ask_days(rt, JULIAN, 5373484..=5373485);
    for style in [GREGORIAN, OLD_EASTER] {
        for day in [1721424, 5373557] {
            ask_date_and_weekday(rt, style, day);
        }
    }
    for style in STYLES {
        ask_days(rt, style, 0..=1);
    }
}

fn october_1582(rt: &impl Print) {
    for day in [4, 5, 14, 15, 31] {
        ask_day_in_each_style(rt, 1582, 10, day);
    }
}

fn year_ends(rt: &impl Print, style: u64, year: u64) {
    for (month, day) in [(1, 1), (12, 31)] {
        ask_day(rt, (style, year, month, day));
    }
}

fn served_years(rt: &impl Print) {
    for year in [0, 1, 9999, 10000] {
        year_ends(rt, JULIAN, year);
    }
    for style in [GREGORIAN, OLD_EASTER] {
        for year in [1, 1581, 1582, 1583, 9999, 10000] {
            year_ends(rt, style, year);
        }
    }
}

fn february_end(rt: &impl Print, style: u64, year: u64) {
    for (month, day) in [(2, 28), (2, 29), (2, 30), (3, 1)] {
        ask_day(rt, (style, year, month, day));
    }
}

fn leap_days(rt: &impl Print) {
    for year in [4, 100, 400] {
        february_end(rt, JULIAN, year);
    }
    for year in [1582, 1583, 1600, 1700, 1900, 2000, 2024, 2025] {
        for style in STYLES {
            february_end(rt, style, year);
        }
    }
}

// The days around 29 February and around the end of a leap year.
fn days_of_leap_years(rt: &impl Print) {
    ask_around(rt, JULIAN, 1722578);
    ask_days(rt, JULIAN, 1722884..=1722885);
    ask_around(rt, JULIAN, 2415092);
    ask_days(rt, GREGORIAN, 2415079..=2415080);
    ask_around(rt, GREGORIAN, 2451604);
    ask_days(rt, GREGORIAN, 2451910..=2451911);
    ask_days(rt, OLD_EASTER, 2415079..=2415080);
    ask_around(rt, OLD_EASTER, 2451604);
}

// A month's last day and the one past it, in a common year.
fn month_end(rt: &impl Print, month: u64, last: u8) {
    let last = u64::from(last);
    for day in [last, last + 1] {
        ask_day_in_each_style(rt, 2025, month, day);
    }
}

fn month_ends(rt: &impl Print) {
    for (month, last) in (1..).zip([31, 28, 31, 30, 31, 30, 31, 31, 30, 31, 30, 31]) {
        month_end(rt, month, last);
    }
}

fn wrong_dates(rt: &impl Print) {
    for (month, day) in [
        (0, 1),
        (13, 1),
        (1, 0),
        (1, 32),
        (2, 31),
        (4, 30),
        (4, 31),
        (12, 0),
        (12, 31),
        (0, 0),
        (13, 32),
    ] {
        ask_day_in_each_style(rt, 2024, month, day);
    }
}

// Dates with several things wrong at once.
fn refusal_order(rt: &impl Print) {
    for given in [
        (0, 2000, 1, 1),
        (4, 2000, 1, 1),
        (4, 0, 1, 1),
        (4, 2000, 13, 1),
        (4, 1582, 10, 14),
        (0, 10000, 0, 0),
        (JULIAN, 0, 13, 1),
        (JULIAN, 0, 1, 32),
        (JULIAN, 10000, 2, 30),
        (GREGORIAN, 0, 0, 0),
        (GREGORIAN, 1500, 2, 29),
        (GREGORIAN, 1500, 13, 1),
        (GREGORIAN, 1581, 10, 15),
        (GREGORIAN, 1581, 2, 29),
        (GREGORIAN, 10000, 1, 0),
        (GREGORIAN, 1582, 0, 1),
        (GREGORIAN, 1582, 13, 1),
        (GREGORIAN, 1582, 2, 29),
        (GREGORIAN, 1582, 9, 31),
        (GREGORIAN, 1582, 10, 0),
        (GREGORIAN, 1582, 10, 32),
        (GREGORIAN, 1582, 1, 1),
        (OLD_EASTER, 0, 0, 0),
        (OLD_EASTER, 1581, 2, 29),
        (OLD_EASTER, 10000, 1, 0),
        (OLD_EASTER, 1582, 2, 29),
        (OLD_EASTER, 1582, 1, 1),
    ] {
        ask_day(rt, given);
    }
    for (style, day) in [(0, 2415092), (4, 2415092), (0, 0), (4, 5373558)] {
        ask_date_and_weekday(rt, style, day);
    }
}

fn distances(rt: &impl Print) {
    for (first, second) in [
        ((JULIAN, 1, 1, 1), (JULIAN, 9999, 12, 31)),
        ((GREGORIAN, 1582, 10, 15), (GREGORIAN, 9999, 12, 31)),
        ((JULIAN, 1, 1, 1), (GREGORIAN, 1582, 10, 15)),
        ((JULIAN, 1, 1, 1), (GREGORIAN, 9999, 12, 31)),
        ((GREGORIAN, 1582, 10, 15), (JULIAN, 9999, 12, 31)),
        ((GREGORIAN, 9999, 12, 31), (JULIAN, 9999, 12, 31)),
        ((OLD_EASTER, 1582, 10, 15), (OLD_EASTER, 9999, 12, 31)),
        ((OLD_EASTER, 1582, 10, 15), (JULIAN, 9999, 12, 31)),
        ((OLD_EASTER, 2024, 5, 5), (JULIAN, 2024, 4, 22)),
        ((OLD_EASTER, 1900, 3, 1), (GREGORIAN, 1900, 3, 1)),
        ((JULIAN, 1, 1, 1), (JULIAN, 1, 1, 1)),
        ((JULIAN, 1582, 10, 5), (GREGORIAN, 1582, 10, 15)),
        ((JULIAN, 1582, 10, 4), (GREGORIAN, 1582, 10, 15)),
        ((JULIAN, 1900, 2, 29), (GREGORIAN, 1900, 3, 13)),
        ((JULIAN, 1900, 1, 1), (GREGORIAN, 1900, 1, 1)),
        ((JULIAN, 1900, 2, 28), (JULIAN, 1900, 3, 1)),
        ((GREGORIAN, 1900, 2, 28), (GREGORIAN, 1900, 3, 1)),
        ((GREGORIAN, 2000, 2, 28), (GREGORIAN, 2000, 3, 1)),
        ((GREGORIAN, 2024, 12, 31), (GREGORIAN, 2025, 1, 1)),
    ] {
        ask_both_distances(rt, first, second);
    }
}

// One date is bad, and then both are, by different numbers.
fn refused_distances(rt: &impl Print) {
    for (first, second) in [
        ((JULIAN, 1900, 2, 29), (4, 2000, 1, 1)),
        ((JULIAN, 1900, 2, 29), (GREGORIAN, 1581, 1, 1)),
        ((JULIAN, 1900, 2, 29), (GREGORIAN, 1900, 2, 29)),
        ((JULIAN, 1900, 2, 29), (GREGORIAN, 1582, 10, 14)),
        ((GREGORIAN, 1582, 10, 14), (4, 2000, 1, 1)),
        ((OLD_EASTER, 1582, 10, 14), (OLD_EASTER, 1581, 1, 1)),
        ((GREGORIAN, 1582, 10, 14), (GREGORIAN, 1581, 1, 1)),
        ((GREGORIAN, 1582, 10, 14), (GREGORIAN, 1900, 2, 29)),
        ((GREGORIAN, 1900, 2, 29), (4, 2000, 1, 1)),
        ((GREGORIAN, 1900, 2, 29), (JULIAN, 0, 1, 1)),
        ((JULIAN, 0, 1, 1), (4, 2000, 1, 1)),
    ] {
        ask_both_distances(rt, first, second);
    }
}

// A number that looks like n once it is cut to 32 bits.
fn looks_like(n: u64) -> u64 {
    CUT.wrapping_add(n)
}

// Arguments that are each huge, that each look like 0, and that each look like the good one.
fn too_large((style, year, month, day): Given) -> [Given; 3] {
    [
        (u64::MAX, u64::MAX, u64::MAX, u64::MAX),
        (CUT, CUT, CUT, CUT),
        (
            looks_like(style),
            looks_like(year),
            looks_like(month),
            looks_like(day),
        ),
    ]
}

// Each argument of `other` in turn beside a good rest.
fn with_each_of((style, year, month, day): Given, other: Given) -> [Given; 4] {
    [
        (other.0, year, month, day),
        (style, other.1, month, day),
        (style, year, other.2, day),
        (style, year, month, other.3),
    ]
}

// 29 February 2024 is a date in every style.
fn huge_dates(rt: &impl Print, known: u64) {
    let good = (known, 2024, 2, 29);
    for other in too_large(good) {
        for given in with_each_of(good, other) {
            ask_day(rt, given);
        }
    }
}

fn huge_days(rt: &impl Print, known: u64) {
    let good = 2460370;
    for style in [u64::MAX, CUT, looks_like(known)] {
        ask_date_and_weekday(rt, style, good);
    }
    for day in [u64::MAX, CUT, looks_like(good)] {
        ask_date_and_weekday(rt, known, day);
    }
}

fn huge_distances(rt: &impl Print) {
    let first = (JULIAN, 1900, 2, 29);
    let second = (GREGORIAN, 2000, 2, 29);
    ask_distance(rt, first, second);
    for other in too_large(first) {
        for given in with_each_of(first, other) {
            ask_distance(rt, given, second);
        }
    }
    for other in too_large(second) {
        for given in with_each_of(second, other) {
            ask_distance(rt, first, given);
        }
    }
}

fn huge_numbers(rt: &impl Print) {
    for style in STYLES {
        huge_dates(rt, style);
    }
    for style in STYLES {
        huge_days(rt, style);
    }
    huge_distances(rt);
}

fn main(rt: HostRuntime) {
    days_to_check_by(&rt);
    julian_span_ends(&rt);
    for style in [GREGORIAN, OLD_EASTER] {
        gregorian_span_ends(&rt, style);
    }
    days_of_one_style(&rt);
    october_1582(&rt);
    served_years(&rt);
    leap_days(&rt);
    days_of_leap_years(&rt);
    month_ends(&rt);
    wrong_dates(&rt);
    refusal_order(&rt);
    distances(&rt);
    refused_distances(&rt);
    huge_numbers(&rt);
}
