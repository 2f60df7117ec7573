// The calls from C, and nothing else. Each takes any numbers and any bytes; its contract fixes the one
// number that it answers, and every byte of the places that it is lent.
#![tactic(auto)]

ghost use Rattle.std.specs.Prelude.{◌≡◌, length, pos};
ghost use Rattle.std.specs.Result.{result_unwrap_or};
ghost use Rattle.answers.specs.Page.{page_answer, FillsPage};
ghost use Rattle.calendar.specs.Date.{day_of_date};
ghost use Rattle.calendar.specs.Distance.{distance_of_days};
ghost use Rattle.calendar.specs.Refusal.{refusal_or_zero, number_or_refusal};
ghost use Rattle.calendar.specs.Weekday.{weekday_of_day};
ghost use Rattle.church.specs.Feast.{feast_of_year};
ghost use Rattle.dating.specs.Line.{IsNumberOfLine};
ghost use Rattle.dating.specs.Part.{IsPartStart, IsPartLength};
ghost use Rattle.marks.specs.Transcript.{FindsMarks, TellsRefusal};

use answers::page::{fill_page, page_refusal};
use calendar::date::day_of_date;
use calendar::distance::distance_of_dates;
use calendar::refusal::{number_or_refusal, refusal_or_zero};
use calendar::weekday::weekday_of_day;
use church::feast::feast_of_year;
use dating::line::number_of_line;
use dating::part::{part_of_line, place_of_part};
use marks::transcript::{find_marks, marks_refusal};

// The day of a dating line, or the refusal: 2, 3, 4, 5 or 6.
#[unsafe(no_mangle)]
pub extern "C" fn qv_line(line: &[u8]) -> u32
    ensures { IsNumberOfLine line.now result }
{
    number_of_line(line)
}

// Where the feast word or date of a dating line begins; 0 for a refused line.
#[unsafe(no_mangle)]
pub extern "C" fn qv_part_start(line: &[u8]) -> usize
    ensures { IsPartStart line.now result }
{
    place_of_part(line).start
}

// How many bytes the feast word or date of a dating line has; 0 for a refused line.
#[unsafe(no_mangle)]
pub extern "C" fn qv_part_length(line: &[u8]) -> usize
    ensures { IsPartLength line.now result }
{
    part_of_line(line).len()
}

// Puts the day or refusal of each line of a page in a place of its own, and answers how many lines there are; 0 where the page is refused.
#[unsafe(no_mangle)]
pub extern "C" fn qv_page(page: &[u8], places: &mut [u8]) -> usize
    ensures value { result ≡ result_unwrap_or (page_answer page.now (length places.old)) 0 }
    ensures fills_page { FillsPage page.now places.old places.new }
{
    fill_page(page, places).unwrap_or(0)
}

// Why a page is refused where size bytes of places are lent: 2, or 0 where it is not.
#[unsafe(no_mangle)]
pub extern "C" fn qv_page_refusal(page: &[u8], size: usize) -> u32
    ensures { result ≡ refusal_or_zero (page_answer page.now size) }
{
    page_refusal(page, size)
}

// The day of a feast, or the refusal: 1, 4 or 6.
#[unsafe(no_mangle)]
pub extern "C" fn qv_feast(style: u64, feast: u64, year: u64) -> u32
    ensures { result ≡ number_or_refusal (feast_of_year style feast year) }
{
    number_or_refusal(feast_of_year(style, feast, year))
}

// The day of a date, or the refusal: 1, 4, 5 or 6.
#[unsafe(no_mangle)]
pub extern "C" fn qv_day(style: u64, year: u64, month: u64, day: u64) -> u32
    ensures { result ≡ number_or_refusal (day_of_date style year month day) }
{
    number_or_refusal(day_of_date(style, year, month, day))
}

// Why a day has no weekday: 1 or 6, or 0 where it has one.
#[unsafe(no_mangle)]
pub extern "C" fn qv_weekday_refusal(style: u64, day_number: u64) -> u32
    ensures { result ≡ refusal_or_zero (weekday_of_day style day_number) }
{
    refusal_or_zero(weekday_of_day(style, day_number))
}

// The weekday of a day, 1 for Monday to 7 for Sunday, or 0 where it is refused.
#[unsafe(no_mangle)]
pub extern "C" fn qv_weekday(style: u64, day_number: u64) -> u32
    ensures { result ≡ result_unwrap_or (weekday_of_day style day_number) 0 }
{
    weekday_of_day(style, day_number).unwrap_or(0)
}

// Why two dates have no distance: the first date's refusal, then the second's, or 0. The eight numbers, here and below, are those of the header.
#[unsafe(no_mangle)]
pub extern "C" fn qv_distance_refusal(
    style1: u64,
    year1: u64,
    month1: u64,
    day1: u64,
    style2: u64,
    year2: u64,
    month2: u64,
    day2: u64,
) -> u32
    ensures { result ≡ refusal_or_zero (distance_of_days (day_of_date style1 year1 month1 day1) (day_of_date style2 year2 month2 day2)) }
{
    refusal_or_zero(distance_of_dates(style1, year1, month1, day1, style2, year2, month2, day2))
}

// The second day less the first, or 0 where it is refused.
#[unsafe(no_mangle)]
pub extern "C" fn qv_distance(
    style1: u64,
    year1: u64,
    month1: u64,
    day1: u64,
    style2: u64,
    year2: u64,
    month2: u64,
    day2: u64,
) -> i32
    ensures { result ≡ result_unwrap_or (distance_of_days (day_of_date style1 year1 month1 day1) (day_of_date style2 year2 month2 day2)) (pos 0) }
{
    distance_of_dates(style1, year1, month1, day1, style2, year2, month2, day2).unwrap_or(0)
}

// Puts each mark of a transcript in a place of its own, and answers how many there are; 0 where they are refused.
#[unsafe(no_mangle)]
pub extern "C" fn qv_marks(text: &[u8], places: &mut [u8]) -> usize
    ensures { FindsMarks (λ n. n) (λ x. 0) text.now places.old places.new result }
{
    find_marks(text, places).unwrap_or(0)
}

// Why the marks of a transcript are refused where places of so many bytes are lent: 2 or 9, or 0.
#[unsafe(no_mangle)]
pub extern "C" fn qv_marks_refusal(text: &[u8], size: usize) -> u32
    ensures { TellsRefusal text.now size result }
{
    marks_refusal(text, size)
}
