// The answer to a dating line, as one line of text.
ghost use Rattle.std.specs.Prelude.{◌+◌, ◌≤◌, length};
ghost use Rattle.dating.specs.Answer.{day_fields, refused_text, PutsField, PutsAnswer};
ghost use Rattle.dating.specs.Steps.{Put, PutsDated};

use crate::line::reading_of_line;
use crate::writer::{put_day, put_number};
use calendar::refusal::Refusal;
use calendar::span::SpanDay;

// Puts a number and a byte after it at a place of a buffer, and returns how many bytes they are; where
// fewer than 21 bytes stand there, which the longest number and the byte have, nothing is put, and 0 is returned.
// The buffer comes with a place, and 0 is no None, since the contract says both, here and of put_answer; so do those that these call.
pub fn put_field(buffer: &mut [u8], at: usize, number: u64, behind: u8) -> usize
    ensures { PutsField number behind at buffer.old buffer.new result }
{
    if buffer.len() < 21 {
        return 0;
    }
    if at > buffer.len() - 21 {
        return 0;
    }
    put_number(buffer, at, number, behind) - at
}

// Puts the answer that is a refusal's number at a place, and returns the place after it.
fn put_refused(buffer: &mut [u8], at: usize, refusal: Refusal) -> usize
    requires { at + 25 ≤ length buffer.old }
    ensures { Put buffer.old at (refused_text refusal) buffer.new result }
{
    put_number(buffer, at, u64::from(u32::from(refusal)), b'\n')
}

// Puts what stands before the date in the answer of a day at a place, and returns the place after it.
fn put_fields(buffer: &mut [u8], at: usize, day: SpanDay) -> usize
    requires { at + 12 ≤ length buffer.old }
    ensures { Put buffer.old at (day_fields day.number) buffer.new result }
{
    let day_at = put_number(buffer, at, 0, b' ');
    let weekday_at = put_number(buffer, day_at, u64::from(day.number), b' ');
    put_number(buffer, weekday_at, u64::from(day.weekday()), b' ')
}

// Puts the answer that tells a day at a place, and returns the place after it.
fn put_dated(buffer: &mut [u8], at: usize, day: SpanDay) -> usize
    requires { at + 25 ≤ length buffer.old }
    ensures { PutsDated day.style day.number at buffer.old buffer.new result }
{
    let date_at = put_fields(buffer, at, day);
    let end = put_day(buffer, date_at, day);
    buffer[end] = b'\n';
    end + 1
}

// Puts the answer to a dating line at a place of a buffer, and returns its length; where fewer than 25
// bytes stand there, which the longest answer has, nothing is put, and 0 is returned.
pub fn put_answer(line: &[u8], buffer: &mut [u8], at: usize) -> usize
    ensures { PutsAnswer line.now at buffer.old buffer.new result }
{
    if buffer.len() < 25 {
        return 0;
    }
    if at > buffer.len() - 25 {
        return 0;
    }
    match reading_of_line(line) {
        Ok(reading) => put_dated(buffer, at, reading.day) - at,
        Err(refusal) => put_refused(buffer, at, refusal) - at,
    }
}
