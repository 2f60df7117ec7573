// The part of the line that is the feast word or date, for the highlight.
ghost use Rattle.dating.specs.Part.{IsPlace, PartOf};

use crate::line::reading_of_line;
use words::text::behind_last;

// Where a part of a line begins and where it ends.
#[derive(Clone, Copy, PartialEq, Eq)]
pub struct Place {
    pub start: usize,
    pub end: usize,
}

// The place of the part; for a refused line the line's start.
pub fn place_of_part(line: &[u8]) -> Place
    ensures { IsPlace line.now result }
{
    match reading_of_line(line) {
        Ok(reading) => {
            let end = reading.phrase;
            Place {
                start: behind_last(&line[..end], b' '),
                end,
            }
        }
        Err(_) => Place { start: 0, end: 0 },
    }
}

// The part itself; for a refused line the empty part at the line's start.
pub fn part_of_line<'a>(line: &'a [u8]) -> &'a [u8]
    ensures { PartOf line.entry result }
{
    let place = place_of_part(line);
    &line[place.start..place.end]
}
