// What a day of a style's span tells.
ghost use Rattle.std.specs.Prelude.{◌≡◌};
ghost use Rattle.calendar.specs.Day.{IsDayIn};
ghost use Rattle.calendar.specs.Weekday.{weekday};

use crate::refusal::Refusal;
use crate::span::SpanDay;
use crate::style::Style;

impl SpanDay {
    // The day with a number, refused by 6.
    #[tactic(auto, using(crate::proofs::span::Laws::span_small))]
    pub fn new(style: Style, number: u64) -> Result<SpanDay, Refusal>
        ensures { IsDayIn style number result }
    {
        if !style.dates_by().is_in_span(number) {
            return Err(Refusal::Span);
        }
        Ok(SpanDay {
            style,
            number: number as u32,
        })
    }

    // Its weekday.
    pub fn weekday(self) -> u32
        ensures { result ≡ weekday self.number }
    {
        self.number % 7 + 1
    }
}
