// Year sheets.
ghost use Rattle.church.specs.Sheet.{IsSheetInYear, IsSheetOfYear};

use crate::easter::{easter_of_year, equinox, limit_of_year};
use crate::epact::{epact_number, golden_number, is_arabic};
use crate::letter::{SundayLetters, sunday_letters};
use calendar::refusal::Refusal;
use calendar::style::Style;
use calendar::year::NamedYear;

// What the church's tables tell of a year.
#[derive(Clone, Copy, PartialEq, Eq)]
pub struct YearSheet {
    pub leap: bool,
    pub golden: u64,
    pub epact: u64,
    // Whether the epact is the Arabic 25.
    pub arabic: bool,
    pub letters: SundayLetters,
    // A day of March, run on past 31, of the calendar that Easter goes by.
    pub limit: u64,
    // The days from 21 March, of the calendar that dates go by, to Easter.
    pub key: u64,
    // Easter's day number.
    pub easter: u32,
}

// The sheet of a named year.
#[tactic(auto, using(crate::proofs::easter::Laws::key_fits, crate::proofs::easter::Laws::key_to_easter), unfolding(crate::specs::Easter::key))]
pub fn sheet_in_year(named: NamedYear) -> Result<YearSheet, Refusal>
    ensures { IsSheetInYear named result }
{
    let year = named.year;
    let easter = easter_of_year(named)?;
    let date_calendar = named.style.dates_by();
    let easter_calendar = named.style.easter_by();
    let equinox = equinox(date_calendar, year)?;
    let epact = epact_number(easter_calendar, year);
    Ok(YearSheet {
        leap: date_calendar.is_leap(year),
        golden: golden_number(year),
        epact,
        arabic: is_arabic(easter_calendar, year, epact),
        letters: sunday_letters(date_calendar, year, equinox),
        limit: limit_of_year(easter_calendar, year),
        key: u64::from(easter - equinox),
        easter,
    })
}

// Year sheet: refused by 1 or 4.
pub fn sheet_of_year(style: u64, year: u64) -> Result<YearSheet, Refusal>
    ensures { IsSheetOfYear style year result }
{
    let style = Style::try_from(style)?;
    sheet_in_year(NamedYear { style, year })
}
