// The month column, as it is printed.
ghost use Rattle.std.specs.Prelude.{◌≡◌};
ghost use Rattle.church.specs.Column.{stands, luna};
ghost use Rattle.church.specs.Epact as table;

use calendar::style::Calendar;

// Whether an epact stands at a day of the column.
#[tactic(auto, unfolding(church::specs::Column::stands, calendar::specs::Range::between))]
fn stands_at(calendar: Calendar, epact: u64, arabic: bool, day: u64) -> bool
    ensures { result ≡ stands calendar epact «arabic» day }
{
    match (calendar, epact) {
        (Calendar::Julian, 1..=26) => day == 34 - epact,
        (Calendar::Julian, 28..=29) => day == 64 - epact,
        (Calendar::Gregorian, 0..=23) => day == 31 - epact,
        (Calendar::Gregorian, 24) => day == 36,
        (Calendar::Gregorian, 25) => day == if arabic { 35 } else { 36 },
        (Calendar::Gregorian, 26..=29) => day == 61 - epact,
        _ => false,
    }
}

// Luna I: the day of the column, March run on past 31, at which the year's epact stands.
#[tactic(auto, using(church::proofs::Claims::luna_found, church::proofs::Claims::one_luna))]
pub(crate) fn luna_one(calendar: Calendar, year: u64, epact: u64, arabic: bool) -> u64
    requires { (epact ≡ table.epact calendar year) × («arabic» ≡ table.arabic calendar year) }
    ensures { result ≡ luna calendar year }
{
    let mut day = 8;
    // A loop that yields Luna I by break is the form that the scope names.
    loop {
        if stands_at(calendar, epact, arabic, day) {
            break day;
        }
        day += 1;
    }
}
