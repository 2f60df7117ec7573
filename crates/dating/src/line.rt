// The dating line, split from its end.
ghost use Rattle.std.specs.Prelude.{◌≡◌, Some, None};
ghost use Rattle.words.specs.Told.{Told};
ghost use Rattle.dating.specs.Line.{IsDayOfLine, IsNumberOfLine};
ghost use Rattle.dating.specs.Steps.{style_of_letter, endings, end_at, IsReading};

use crate::phrase::phrase_in_year;
use calendar::range::is_between;
use calendar::refusal::{Refusal, number_or_refusal};
use calendar::span::SpanDay;
use calendar::style::Style;
use calendar::year::NamedYear;
use words::numeral::{four_digits, number_of};
use words::text::behind_last;

// The length of a line's phrase, and the year with its style that stand after it.
#[derive(Clone, Copy)]
struct Ending {
    phrase: usize,
    named: NamedYear,
}

// What an accepted line is read as: its day and the length of its phrase.
#[derive(Clone, Copy)]
pub(crate) struct Reading {
    pub day: SpanDay,
    pub phrase: usize,
}

// The style whose letter a byte is.
fn style_of_letter(byte: u8) -> Option<Style>
    ensures { result ≡ style_of_letter byte }
{
    match byte {
        b'G' => Some(Style::G),
        b'J' => Some(Style::J),
        b'O' => Some(Style::O),
        _ => None,
    }
}

// What stands after the phrase of a line.
fn ending_of(line: &[u8]) -> Option<Ending>
    ensures { Told endings (λ x. Some (end_at x)) None line.now result }
{
    let length = line.len();
    if length < 2 {
        return None;
    }
    if line[length - 2] != b' ' {
        return None;
    }
    let style = style_of_letter(line[length - 1])?;
    // Most years have four digits.
    if length > 7 && line[length - 7] == b' ' {
        if let Some(year) = four_digits(
            line[length - 6],
            line[length - 5],
            line[length - 4],
            line[length - 3],
        ) {
            return Some(Ending {
                phrase: length - 7,
                named: NamedYear {
                    style,
                    year: u64::from(year),
                },
            });
        }
    }
    let front = &line[..length - 2];
    let start = behind_last(front, b' ');
    if start == 0 {
        return None;
    }
    let year = number_of(&front[start..], 9999)?;
    Some(Ending {
        phrase: start - 1,
        named: NamedYear { style, year },
    })
}

// The reading of a dating line: refused by 2, 3, 4, 5 or 6.
pub(crate) fn reading_of_line(line: &[u8]) -> Result<Reading, Refusal>
    ensures { IsReading line.now result }
{
    if !is_between(1, line.len() as u64, 120) {
        return Err(Refusal::Length);
    }
    let Some(ending) = ending_of(line) else {
        return Err(Refusal::Form);
    };
    let style = ending.named.style;
    let phrase = ending.phrase;
    let number = phrase_in_year(&line[..phrase], style, ending.named.year)?;
    Ok(Reading {
        day: SpanDay { style, number },
        phrase,
    })
}

// The day of a dating line: refused by 2, 3, 4, 5 or 6.
pub fn day_of_line(line: &[u8]) -> Result<u32, Refusal>
    ensures { IsDayOfLine line.now result }
{
    Ok(reading_of_line(line)?.day.number)
}

// The one number of the answer to a dating line: its day, or the refusal 2, 3, 4, 5 or 6. A number, since this is public and may not change.
pub fn number_of_line(line: &[u8]) -> u32
    ensures { IsNumberOfLine line.now result }
{
    number_or_refusal(day_of_line(line))
}
