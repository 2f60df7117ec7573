// The marks of a whole transcript, each in a place of its own.
ghost use Rattle.std.specs.Prelude.{◌≡◌, ◌+◌, ◌≤◌, length, Ok, Err};
ghost use Rattle.marks.specs.Steps.{CountsMarks, Few, with_place, Fillable, FillsPlaces, CountsInSize};
ghost use Rattle.marks.specs.Transcript.{IsNextMark, FindsMarks, TellsRefusal};

use crate::mark::{Mark, first_mark};
use crate::utf8::{count_starts, is_utf8};
use crate::walk::marks_of;
use calendar::refusal::{Refusal, refusal_or_zero};
use dating::line::number_of_line;
use places::number::put_number;

// A mark of a text: where it begins and ends, and how many characters begin before these places.
#[derive(Clone, Copy, PartialEq, Eq)]
pub struct NextMark {
    pub start: usize,
    pub end: usize,
    pub start_character: usize,
    pub end_character: usize,
}

// The first mark of a text, in bytes and in characters.
pub fn next_mark(text: &[u8]) -> Option<NextMark>
    ensures { IsNextMark text.now result }
{
    let Mark { start, end } = first_mark(text)?;
    let start_character = count_starts(&text[..start]);
    let end_character = start_character + count_starts(&text[start..end]);
    Some(NextMark {
        start,
        end,
        start_character,
        end_character,
    })
}

// How many marks a text has.
fn count_marks(text: &[u8]) -> usize
    ensures { CountsMarks text.now result }
{
    marks_of(text).count()
}

// Puts at a place, as put_number does, where a mark begins and ends, in bytes and in characters, and its day or refusal.
fn put_place(places: &mut [u8], at: usize, mark: NextMark, number: u32)
    requires { (at + 20 ≤ length places.old) × Few mark }
    ensures { places.new
        ≡ with_place places.old at mark.start mark.end mark.start_character mark.end_character number }
{
    put_number(places, at, mark.start as u32);
    put_number(places, at + 4, mark.end as u32);
    put_number(places, at + 8, mark.start_character as u32);
    put_number(places, at + 12, mark.end_character as u32);
    put_number(places, at + 16, number);
}

// Puts the marks of a transcript that is UTF-8 in their places, which are enough.
fn fill_places(text: &[u8], places: &mut [u8])
    requires { Fillable text.now (length places.old) }
    ensures { FillsPlaces text.now places.old places.new }
{
    let mut place = 0;
    // By places and not over chunks of twenty, since no contract says what a slice holds after its chunks are written.
    for mark in marks_of(text) {
        let number = number_of_line(&text[mark.start..mark.end]);
        put_place(places, place, mark, number);
        place += 20;
    }
}

// The number of marks that a transcript has, or the refusal, where places of so many bytes are lent:
// refused by 2, 9 or 2.
fn marks_in_size(text: &[u8], size: usize) -> Result<usize, Refusal>
    ensures { CountsInSize text.now size result }
{
    if text.len() > 65536 {
        return Err(Refusal::Length);
    }
    if !is_utf8(text) {
        return Err(Refusal::Encoding);
    }
    let count = count_marks(text);
    if count > size / 20 {
        return Err(Refusal::Length);
    }
    Ok(count)
}

// Puts each mark of a transcript in a place of its own, and returns the number of marks: refused by 2, 9 or 2.
pub fn find_marks(text: &[u8], places: &mut [u8]) -> Result<usize, Refusal>
    ensures { FindsMarks Ok Err text.now places.old places.new result }
{
    let count = marks_in_size(text, places.len())?;
    fill_places(text, places);
    Ok(count)
}

// Why a transcript's marks are refused where places of so many bytes are lent: 2 or 9, or 0 where they are not.
// A number, since this is public and may not change.
pub fn marks_refusal(text: &[u8], size: usize) -> u32
    ensures { TellsRefusal text.now size result }
{
    refusal_or_zero(marks_in_size(text, size))
}
