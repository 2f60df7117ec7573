// Weekdays, from 1 for Monday to 7 for Sunday.
ghost use Rattle.std.specs.Prelude.{◌≡◌};
ghost use Rattle.calendar.specs.Steps.{latest_of_seven};
ghost use Rattle.calendar.specs.Weekday.{weekday_in_style, weekday_of_day, first_weekday};

use crate::range::is_between;
use crate::refusal::Refusal;
use crate::span::SpanDay;
use crate::style::Style;

// The weekday of a day of a style.
pub fn weekday_in_style(style: Style, day: u64) -> Result<u32, Refusal>
    ensures { result ≡ weekday_in_style style day }
{
    Ok(SpanDay::new(style, day)?.weekday())
}

// Weekday: refused by 1 or 6.
pub fn weekday_of_day(style: u64, day: u64) -> Result<u32, Refusal>
    ensures { result ≡ weekday_of_day style day }
{
    weekday_in_style(Style::try_from(style)?, day)
}

// The side of a day on which a weekday is looked for.
#[derive(Clone, Copy, PartialEq, Eq)]
pub enum Side {
    After,
    Before,
}

// Whether the day from which a weekday is looked for counts.
#[derive(Clone, Copy, PartialEq, Eq)]
pub enum Start {
    Counted,
    Uncounted,
}

// The latest of the seven days that are looked at on a side of a day, with 7 added, so that none lies before 0.
fn latest_of_seven(start: Start, side: Side, day: u32) -> u64
    ensures { result ≡ latest_of_seven start side day }
{
    // What is added is taken without a branch, where a sum in each case would be one.
    let added = match (side, start) {
        (Side::After, Start::Counted) => 13,
        (Side::After, Start::Uncounted) => 14,
        (Side::Before, Start::Counted) => 7,
        (Side::Before, Start::Uncounted) => 6,
    };
    u64::from(day) + added
}

// The first such weekday on a side of a day, which itself counts or not; 0 where there is none.
// No Option and no type for a weekday: the contract is an equation with a definition of numbers, which has 0 there too.
#[tactic(auto, using(crate::proofs::weekday::Laws::first_found))]
pub fn first_weekday(start: Start, side: Side, weekday: u64, day: u32) -> u64
    ensures { result ≡ first_weekday start side weekday day }
{
    if !is_between(1, weekday, 7) {
        return 0;
    }
    // The weekday lies at most six days before the latest, and the 7 that were added are taken off too.
    let latest = latest_of_seven(start, side, day);
    let back = (latest + 1 + 6 * weekday) % 7 + 7;
    if latest < back {
        return 0;
    }
    latest - back
}
