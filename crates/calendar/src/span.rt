// The days that a style may name, by the calendar that its dates go by.
ghost use Rattle.std.specs.Prelude.{true, ◌≡◌};
ghost use Rattle.calendar.specs.Style.{dates_by};
ghost use Rattle.calendar.specs.Span.{first_day, last_day, in_span, within};

use crate::range::is_between;
use crate::refusal::Refusal;
use crate::style::{Calendar, Style};

// A day of a style's span.
#[derive(Clone, Copy, PartialEq, Eq)]
pub struct SpanDay {
    pub style: Style,
    pub number: u32,
    ghost in_span: { in_span (dates_by style) number ≡ true },
}

impl Calendar {
    // The first day of the span.
    fn first_day(self) -> u64
        ensures { result ≡ first_day self }
    {
        match self {
            Calendar::Julian => 1721424,
            Calendar::Gregorian => 2299161,
        }
    }

    // The last day of the span.
    fn last_day(self) -> u64
        ensures { result ≡ last_day self }
    {
        match self {
            Calendar::Julian => 5373557,
            Calendar::Gregorian => 5373484,
        }
    }

    // Whether a day lies in the span.
    #[tactic(auto, unfolding(crate::specs::Span::in_span))]
    pub(crate) fn is_in_span(self, day: u64) -> bool
        ensures { result ≡ in_span self day }
    {
        is_between(self.first_day(), day, self.last_day())
    }
}

// The day itself where the span has it.
#[tactic(auto, using(crate::proofs::span::Laws::span_small), unfolding(crate::specs::Span::within))]
pub fn day_within(calendar: Calendar, day: u64) -> Result<u32, Refusal>
    ensures { result ≡ within calendar day }
{
    if !calendar.is_in_span(day) {
        return Err(Refusal::Span);
    }
    Ok(day as u32)
}
