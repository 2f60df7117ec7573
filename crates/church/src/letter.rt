// Sunday letters, by the calendar that dates go by.
ghost use Rattle.std.specs.Prelude.{◌≡◌};
ghost use Rattle.church.specs.Easter.{march};
ghost use Rattle.church.specs.Letter.{first, second, letter_after, SundayLetter};

use calendar::style::Calendar;

// The bytes of the letters up to 28 February and from 1 March.
#[derive(Clone, Copy, PartialEq, Eq)]
pub struct SundayLetters {
    pub first: u8,
    pub second: u8,
}

// The letter that comes n days after A.
fn letter_after(n: u32) -> u8
    ensures { result ≡ letter_after n }
{
    b'A' + (n % 7) as u8
}

// The letters of a year, told by the day of 21 March.
pub(crate) fn sunday_letters(calendar: Calendar, year: u64, equinox: u32) -> SundayLetters
    requires { equinox ≡ march calendar year 21 }
    ensures first { SundayLetter calendar year first result.first }
    ensures second { SundayLetter calendar year second result.second }
{
    // The leap day makes the first letter one later.
    let ahead = u32::from(calendar.is_leap(year));
    SundayLetters {
        first: letter_after(8 + ahead - equinox % 7),
        second: letter_after(8 - equinox % 7),
    }
}
