// Feasts by their numbers, as the scope lists them and its tables are indexed: 1 to 23 hang on Easter, 24 to 47 are fixed, 48 is advent.
ghost use Rattle.std.specs.Prelude.{◌≡◌, ◌≤◌};
ghost use Rattle.church.specs.Feast.{advent, rule, rule_day, feast_in_year, feast_of_year};

use crate::easter::{SUNDAY, easter_of_year};
use calendar::date::day_in_year;
use calendar::refusal::Refusal;
use calendar::span::day_within;
use calendar::style::Style;
use calendar::weekday::{Side, Start, first_weekday};
use calendar::year::NamedYear;

// The days from Easter of the feasts 1 to 23. The tables are static, since each use of a constant one may lay it on the stack anew.
static FROM_EASTER: [i8; 23] = [
    -63, // septuagesima
    -56, // sexagesima
    -49, // estomihi
    -46, // ashes
    -42, // invocavit
    -35, // reminiscere
    -28, // oculi
    -21, // laetare
    -14, // judica
    -7, // palms
    -3, // cena
    -2, // parasceve
    0, // easter
    7, // quasimodo
    14, // misericordia
    21, // jubilate
    28, // cantate
    35, // rogate
    39, // ascension
    42, // exaudi
    49, // pentecost
    56, // trinity
    60, // corpus
];

// Day and month of the feasts 24 to 47, and whether the feast is a day later in leap years.
static FIXED_DATES: [(u8, u8, bool); 24] = [
    (1, 1, false), // circumcision
    (6, 1, false), // epiphany
    (2, 2, false), // candlemas
    (24, 2, true), // matthias
    (25, 3, false), // annunciation
    (25, 4, false), // mark
    (1, 5, false), // philip
    (24, 6, false), // baptist
    (29, 6, false), // peter
    (22, 7, false), // magdalene
    (25, 7, false), // james
    (10, 8, false), // laurence
    (15, 8, false), // assumption
    (24, 8, false), // bartholomew
    (21, 9, false), // matthew
    (29, 9, false), // michael
    (18, 10, false), // luke
    (28, 10, false), // simon
    (1, 11, false), // saints
    (11, 11, false), // martin
    (30, 11, false), // andrew
    (6, 12, false), // nicholas
    (21, 12, false), // thomas
    (25, 12, false), // christmas
];

// The day of a feast that hangs on Easter.
#[tactic(auto, using(crate::proofs::feast::Laws::hung_rule, crate::proofs::feast::Laws::hung_refused))]
fn hung_on_easter(named: NamedYear, feast: u64) -> Result<u32, Refusal>
    requires { (1 ≤ feast) × (feast ≤ 23) }
    ensures { result ≡ rule_day named (rule feast) }
{
    let easter = easter_of_year(named)?;
    let days = i64::from(FROM_EASTER[(feast - 1) as usize]);
    day_within(named.style.dates_by(), (i64::from(easter) + days) as u64)
}

// The day of a feast that has a date.
#[tactic(auto, using(crate::proofs::feast::Laws::fixed_rule, crate::proofs::feast::Laws::fixed_small, crate::proofs::feast::Laws::kept_day))]
fn fixed_in_year(named: NamedYear, feast: u64) -> Result<u32, Refusal>
    requires { (24 ≤ feast) × (feast ≤ 47) }
    ensures { result ≡ rule_day named (rule feast) }
{
    let (day, month, moves) = FIXED_DATES[(feast - 24) as usize];
    // Whether the year is leap is asked only for a feast that moves.
    let later = moves && named.style.dates_by().is_leap(named.year);
    day_in_year(named, u64::from(month), u64::from(day) + u64::from(later))
}

// Advent, the first Sunday on or after 27 November.
#[tactic(auto, using(crate::proofs::feast::Laws::advent_refused, crate::proofs::feast::Laws::advent_told))]
fn advent_of_year(named: NamedYear) -> Result<u32, Refusal>
    ensures { result ≡ rule_day named advent }
{
    let day = day_in_year(named, 11, 27)?;
    day_within(
        named.style.dates_by(),
        first_weekday(Start::Counted, Side::After, SUNDAY, day),
    )
}

// The day of a feast of a named year.
#[tactic(auto, unfolding(crate::specs::Feast::feast_in_year, calendar::specs::Range::between))]
pub fn feast_in_year(named: NamedYear, feast: u64) -> Result<u32, Refusal>
    ensures { result ≡ feast_in_year named feast }
{
    match feast {
        1..=23 => hung_on_easter(named, feast),
        24..=47 => fixed_in_year(named, feast),
        48 => advent_of_year(named),
        _ => Err(Refusal::Name),
    }
}

// Feast: refused by 1, 4 or 6.
pub fn feast_of_year(style: u64, feast: u64, year: u64) -> Result<u32, Refusal>
    ensures { result ≡ feast_of_year style feast year }
{
    let style = Style::try_from(style)?;
    feast_in_year(NamedYear { style, year }, feast)
}
