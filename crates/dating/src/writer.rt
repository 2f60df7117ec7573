// The writer: the day of a style as a date. Its text is put by hand and not by Display, since the contracts say which bytes stand at
// which place of the lent buffer.
ghost use Rattle.std.specs.Prelude.{◌≡◌, ◌+◌, ◌≤◌, length};
ghost use Rattle.calendar.specs.Year.{named};
ghost use Rattle.words.specs.Numeral.{numeral, field};
ghost use Rattle.dating.specs.Steps.{Put, PutsDate};
ghost use Rattle.dating.specs.Writer.{date_text, WritesInStyle, Writes};

use calendar::date::CalendarDate;
use calendar::refusal::Refusal;
use calendar::span::SpanDay;
use calendar::style::Style;

// How many digits a number has.
fn digit_count(number: u64) -> usize
    ensures { result ≡ length (numeral number) }
{
    let mut count = 1;
    let mut rest = number;
    // No index is counted: the number is divided as its numeral is, of which the library's logarithm, told by powers, says less plainly.
    while rest >= 10 {
        rest /= 10;
        count += 1;
    }
    count
}

// Puts a number below 100 and a byte behind it at a place, and answers the place behind both.
fn put_short(buffer: &mut [u8], at: usize, number: u64, behind: u8) -> usize
    requires { (number ≤ 99) × (at + length (field number behind) ≤ length buffer.old) }
    ensures { Put buffer.old at (field number behind) buffer.new result }
{
    let last = if number < 10 { at } else { at + 1 };
    // Where there is one digit, it is put over the tens.
    buffer[at] = b'0' + (number / 10) as u8;
    buffer[last] = b'0' + (number % 10) as u8;
    buffer[last + 1] = behind;
    last + 2
}

// Puts a number and a byte behind it at a place, and answers the place behind both.
pub(crate) fn put_number(buffer: &mut [u8], at: usize, number: u64, behind: u8) -> usize
    requires { at + length (field number behind) ≤ length buffer.old }
    ensures { Put buffer.old at (field number behind) buffer.new result }
{
    if number < 100 {
        return put_short(buffer, at, number, behind);
    }
    let end = at + digit_count(number);
    buffer[end] = behind;
    let mut rest = number;
    for place in (at + 1..end).rev() {
        buffer[place] = b'0' + (rest % 10) as u8;
        rest /= 10;
    }
    buffer[at] = b'0' + rest as u8;
    end + 1
}

// Puts a date of a style at a place, and returns the place after it.
fn put_date(buffer: &mut [u8], at: usize, style: Style, date: CalendarDate) -> usize
    requires { at + length (date_text (named style date.year) date.month date.day) ≤ length buffer.old }
    ensures { Put buffer.old at (date_text (named style date.year) date.month date.day) buffer.new result }
{
    let month_at = put_number(buffer, at, date.day, b'.');
    let year_at = put_number(buffer, month_at, date.month, b' ');
    let letter_at = put_number(buffer, year_at, date.year, b' ');
    buffer[letter_at] = style.letter();
    letter_at + 1
}

// Puts the date of a day of the span at a place, and returns the place after it.
pub(crate) fn put_day(buffer: &mut [u8], at: usize, day: SpanDay) -> usize
    requires { at + 12 ≤ length buffer.old }
    ensures { PutsDate day.style day.number at buffer.old buffer.new result }
{
    put_date(buffer, at, day.style, day.date())
}

// The writer in a style: refused by 2 or 6.
pub fn write_in_style(style: Style, day: u64, buffer: &mut [u8]) -> Result<usize, Refusal>
    ensures { WritesInStyle buffer.old buffer.new result style day }
{
    if buffer.len() < 12 {
        return Err(Refusal::Length);
    }
    let day = SpanDay::new(style, day)?;
    Ok(put_day(buffer, 0, day))
}

// The writer: refused by 1, 2 or 6.
pub fn write_date(style: u64, day: u64, buffer: &mut [u8]) -> Result<usize, Refusal>
    ensures { Writes buffer.old buffer.new result style day }
{
    write_in_style(Style::try_from(style)?, day, buffer)
}
