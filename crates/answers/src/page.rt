// A page of lines, the day or refusal of each in a place of its own.
ghost use Rattle.std.specs.Prelude.{◌≡◌, ◌+◌, ◌/◌, ◌≤◌, length};
ghost use Rattle.answers.specs.Lines.{lines_of};
ghost use Rattle.answers.specs.Page.{page_answer, Filled, FillsPage};
ghost use Rattle.calendar.specs.Refusal.{refusal_or_zero};

use crate::feed::{count_feeds, end_from};
use calendar::refusal::{Refusal, refusal_or_zero};
use dating::line::number_of_line;
use places::number::put_number;

// How many lines a page has.
fn count_lines(page: &[u8]) -> usize
    ensures { result ≡ length (lines_of page.now) }
{
    let unended = page.last().is_some_and(|&last| last != b'\n');
    count_feeds(page) + usize::from(unended)
}

// Puts the day or refusal of each line of a page in its place, where there are places enough.
fn fill_places(page: &[u8], places: &mut [u8])
    requires { length (lines_of page.now) ≤ length places.old / 4 }
    ensures { Filled page.now places.old places.new }
{
    let mut place = 0;
    let mut start = 0;
    // By places and not over chunks of four, since no contract says what a slice holds after its chunks are written.
    while start < page.len() {
        let end = end_from(page, start).unwrap_or(page.len());
        put_number(places, place, number_of_line(&page[start..end]));
        place += 4;
        start = end + 1;
    }
}

// How many lines a page has, or its refusal, 2, where size bytes of places are lent.
fn lines_in_size(page: &[u8], size: usize) -> Result<usize, Refusal>
    ensures { result ≡ page_answer page.now size }
{
    if page.len() > 65536 {
        return Err(Refusal::Length);
    }
    let count = count_lines(page);
    if count > size / 4 {
        return Err(Refusal::Length);
    }
    Ok(count)
}

// Puts the day or refusal of each line of a page in a place of its own, and returns the number of lines; or refuses by 2 and puts nothing.
pub fn fill_page(page: &[u8], places: &mut [u8]) -> Result<usize, Refusal>
    ensures value { result ≡ page_answer page.now (length places.old) }
    ensures fills_page { FillsPage page.now places.old places.new }
{
    let count = lines_in_size(page, places.len())?;
    fill_places(page, places);
    Ok(count)
}

// Why a page is refused where size bytes of places are lent: 2, or 0 where it is not. A number, since this is public and may not change.
pub fn page_refusal(page: &[u8], size: usize) -> u32
    ensures { result ≡ refusal_or_zero (page_answer page.now size) }
{
    refusal_or_zero(lines_in_size(page, size))
}
