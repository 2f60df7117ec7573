// Wrappers move a day, and each moved day is tested against the span.
ghost use Rattle.std.specs.Prelude.{true, ◌≡◌, Ok};
ghost use Rattle.calendar.specs.Span.{in_span};
ghost use Rattle.words.specs.Wrapper.{GoodWrapper};
ghost use Rattle.dating.specs.Act.{acted};

use calendar::refusal::Refusal;
use calendar::span::day_within;
use calendar::style::Calendar;
use calendar::weekday::{Side, Start, first_weekday};
use words::wrapper::Wrapper;

// The day that a wrapper makes of a day of the span.
#[tactic(auto, using(calendar::proofs::span::Laws::span_small))]
pub(crate) fn act(wrapper: Wrapper, calendar: Calendar, day: u32) -> Result<u32, Refusal>
    requires { GoodWrapper wrapper × (in_span calendar day ≡ true) }
    ensures { result ≡ acted calendar wrapper (Ok day) }
{
    // The weekday found and the days added, which are one more here, are both worked out, and one is taken without a branch.
    let (start, side, told, added) = match wrapper {
        Wrapper::Eve => (Start::Counted, Side::After, 0, 0),
        Wrapper::Morrow => (Start::Counted, Side::After, 0, 2),
        Wrapper::Octave => (Start::Counted, Side::After, 0, 8),
        Wrapper::First(start, side, weekday) => (start, side, weekday, 1),
    };
    let weekday = if told == 0 { 7 } else { told };
    let found = first_weekday(start, side, weekday, day);
    let moved = u64::from(day) + added - 1;
    let answer = if told == 0 { moved } else { found };
    day_within(calendar, answer)
}
