// The limit and Easter.
ghost use Rattle.std.specs.Prelude.{◌≡◌, ◌+◌, ◌-◌, ◌≤◌, Ok, Err};
ghost use Rattle.calendar.specs.Refusal.{checked};
ghost use Rattle.calendar.specs.Span.{earliest, latest};
ghost use Rattle.calendar.specs.Weekday.{sunday, first_weekday};
ghost use Rattle.calendar.specs.declared.weekday.Side.TheVariants.{After};
ghost use Rattle.calendar.specs.declared.weekday.Start.TheVariants.{Uncounted};
ghost use Rattle.church.specs.Easter.{limit, march, has_easter, easter_tests, easter_of_year};

use crate::arithmetic::{gregorian_limit, julian_limit};
use crate::epact::golden_number;
use calendar::date::day_in_calendar;
use calendar::refusal::Refusal;
use calendar::style::Calendar;
use calendar::weekday::{Side, Start, first_weekday};
use calendar::year::NamedYear;

// Sunday's number.
pub(crate) const SUNDAY: u64 = 7;

// The limit, a day of March run on past 31.
#[tactic(auto, using(crate::proofs::epact::Laws::golden_range))]
pub(crate) fn limit_of_year(calendar: Calendar, year: u64) -> u64
    ensures { result ≡ limit calendar year }
{
    let golden_number = golden_number(year);
    let b = 11 * golden_number % 30;
    // Both are worked out, so that there is no branch on the calendar.
    let julian = julian_limit(b);
    let gregorian = gregorian_limit(golden_number, b, year / 100);
    match calendar {
        Calendar::Julian => julian,
        Calendar::Gregorian => gregorian,
    }
}

// Whether the year's Easter is answered where dates go by the calendar.
#[tactic(auto, using(crate::proofs::easter::Laws::easter_range), unfolding(calendar::specs::Range::between))]
pub(crate) fn has_easter(calendar: Calendar, year: u64) -> bool
    ensures { result ≡ has_easter calendar year }
{
    match calendar {
        Calendar::Julian => matches!(year, 1..=9999),
        Calendar::Gregorian => matches!(year, 1583..=9999),
    }
}

// The day of 21 March, where the year's Easter is answered if dates go by the calendar, and else 4.
#[tactic(auto, using(crate::proofs::easter::Laws::equinox_closed))]
pub(crate) fn equinox(calendar: Calendar, year: u64) -> Result<u32, Refusal>
    ensures { result ≡ checked Err (Ok (march calendar year 21)) (easter_tests calendar year) }
{
    // Else the year is not served, or it is 1582 of G, whose 21 March lies before the span.
    day_in_calendar(calendar, year, 3, 21).or(Err(Refusal::Year))
}

// The first Sunday after a limit of the year whose 21 March is given.
#[tactic(auto, using(calendar::proofs::weekday::Laws::is_later))]
pub(crate) fn easter_after(equinox: u32, limit: u64) -> u32
    requires { (earliest ≤ equinox) × (equinox ≤ latest) × (21 ≤ limit) × (limit ≤ 49) }
    ensures { result ≡ first_weekday Uncounted After sunday (equinox + limit - 21) }
{
    let limit_day = equinox + limit as u32 - 21;
    first_weekday(Start::Uncounted, Side::After, SUNDAY, limit_day) as u32
}

// Easter, where the year's is answered, and else 4.
#[tactic(auto, using(crate::proofs::easter::Laws::both_have, crate::proofs::easter::Laws::easter_asked, crate::proofs::easter::Laws::easter_closed))]
pub(crate) fn easter_of_year(named: NamedYear) -> Result<u32, Refusal>
    ensures { result ≡ easter_of_year named }
{
    if !has_easter(named.style.dates_by(), named.year) {
        return Err(Refusal::Year);
    }
    let calendar = named.style.easter_by();
    // No style has a year of its dates for which the calendar of its Easter has none.
    let equinox = equinox(calendar, named.year)?;
    Ok(easter_after(equinox, limit_of_year(calendar, named.year)))
}
