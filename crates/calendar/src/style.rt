// The styles of dating, each with two sides: the calendar that its dates go by, and the calendar that its Easter goes by.
ghost use Rattle.std.specs.Prelude.{◌≡◌};
ghost use Rattle.calendar.specs.Style.{style_letter, dates_by, easter_by, style_of};

use crate::refusal::Refusal;

// A calendar.
#[derive(Clone, Copy, PartialEq, Eq)]
pub enum Calendar {
    Julian,
    Gregorian,
}

// A style of dating.
#[derive(Clone, Copy, PartialEq, Eq)]
pub enum Style {
    // The Julian calendar.
    J,
    // The Gregorian calendar.
    G,
    // Old Easter with new dates: dates of the Gregorian calendar, and Easter by the Julian.
    O,
}

// The style that has a number.
impl TryFrom<u64> for Style {
    type Error = Refusal;

    ghost try_from_gives = { λ number answer. answer ≡ style_of number };

    #[tactic(auto, unfolding(crate::specs::Style::style_of))]
    fn try_from(number: u64) -> Result<Style, Refusal> {
        match number {
            1 => Ok(Style::J),
            2 => Ok(Style::G),
            3 => Ok(Style::O),
            _ => Err(Refusal::Name),
        }
    }
}

impl Style {
    // The calendar that its dates go by.
    pub fn dates_by(self) -> Calendar
        ensures { result ≡ dates_by self }
    {
        match self {
            Style::J => Calendar::Julian,
            Style::G => Calendar::Gregorian,
            Style::O => Calendar::Gregorian,
        }
    }

    // The calendar that its Easter goes by.
    pub fn easter_by(self) -> Calendar
        ensures { result ≡ easter_by self }
    {
        match self {
            Style::J => Calendar::Julian,
            Style::G => Calendar::Gregorian,
            Style::O => Calendar::Julian,
        }
    }

    // The byte of its letter.
    pub fn letter(self) -> u8
        ensures { result ≡ style_letter self }
    {
        match self {
            Style::J => b'J',
            Style::G => b'G',
            Style::O => b'O',
        }
    }
}
