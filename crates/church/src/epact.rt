// Golden numbers, and epacts by the calendar that Easter goes by.
ghost use Rattle.std.specs.Prelude.{◌≡◌, ◌≤◌};
ghost use Rattle.church.specs.Epact.{golden, by30, gregorian_sum, epact, arabic};

use calendar::style::Calendar;

// The golden number.
#[tactic(auto, unfolding(crate::specs::Epact::golden))]
pub(crate) fn golden_number(year: u64) -> u64
    ensures { result ≡ golden year }
{
    year % 19 + 1
}

// The Gregorian epact of a golden number and a year's whole hundreds, as many as a 64-bit year can
// have; 30 times the hundreds are added, so that no sum is negative.
fn gregorian_epact(golden_number: u64, hundreds: u64) -> u64
    requires { (1 ≤ golden_number) × (golden_number ≤ 19) × (hundreds ≤ 184467440737095516) }
    ensures { result ≡ by30 (gregorian_sum golden_number hundreds) }
{
    let sun = hundreds / 4 + 30 * hundreds - hundreds;
    let moon = (8 * hundreds + 13) / 25;
    (11 * (golden_number - 1) + 8 + sun + moon) % 30
}

// The epact.
#[tactic(auto, using(crate::proofs::epact::Laws::golden_range), unfolding(crate::specs::Epact::epact))]
pub(crate) fn epact_number(calendar: Calendar, year: u64) -> u64
    ensures { result ≡ epact calendar year }
{
    let golden_number = golden_number(year);
    match calendar {
        Calendar::Julian => 11 * golden_number % 30,
        Calendar::Gregorian => gregorian_epact(golden_number, year / 100),
    }
}

// Whether the year's epact is the Arabic 25.
#[tactic(auto, unfolding(crate::specs::Epact::arabic))]
pub(crate) fn is_arabic(calendar: Calendar, year: u64, number: u64) -> bool
    requires { number ≡ epact calendar year }
    ensures { result ≡ arabic calendar year }
{
    match calendar {
        Calendar::Julian => false,
        Calendar::Gregorian => number == 25 && golden_number(year) > 11,
    }
}
