// The signed distance of two dates.
ghost use Rattle.std.specs.Prelude.{◌≡◌, ◌≤◌};
ghost use Rattle.calendar.specs.Date.{day_of_date};
ghost use Rattle.calendar.specs.Distance.{distance, distance_of_days};
ghost use Rattle.calendar.specs.Span.{latest};

use crate::date::day_of_date;
use crate::refusal::Refusal;

// The second day less the first, of two days that some span has.
fn days_between(first: u32, second: u32) -> i32
    requires { (first ≤ latest) × (second ≤ latest) }
    ensures { result ≡ distance first second }
{
    let from = first as i32;
    let to = second as i32;
    to - from
}

// Distance in days: the first date's refusal, then the second's. The two dates come as the eight numbers that C hands in.
#[tactic(auto, using(crate::proofs::date::Laws::day_range))]
pub fn distance_of_dates(
    style1: u64,
    year1: u64,
    month1: u64,
    day1: u64,
    style2: u64,
    year2: u64,
    month2: u64,
    day2: u64,
) -> Result<i32, Refusal>
    ensures { result ≡ distance_of_days (day_of_date style1 year1 month1 day1) (day_of_date style2 year2 month2 day2) }
{
    let first = day_of_date(style1, year1, month1, day1)?;
    let second = day_of_date(style2, year2, month2, day2)?;
    Ok(days_between(first, second))
}
