// Refusals and their numbers.
ghost use Rattle.std.specs.Prelude.{◌≡◌};
ghost use Rattle.calendar.specs.Refusal.{refusal_number, refusal_or_zero, number_or_refusal};

// Why a call is refused.
#[derive(Clone, Copy, PartialEq, Eq)]
pub enum Refusal {
    // A style or feast number is not in its list.
    Name,
    // A line is empty or too long, a page or a transcript too long, a buffer too short, or the places too few.
    Length,
    // The grammar does not produce the line.
    Form,
    // The year is not served.
    Year,
    // The year has no such month, or the month no such day.
    Date,
    // The day lies outside the style's span.
    Span,
    // The transcript is not UTF-8.
    Encoding,
}

// The number that a caller is told.
impl From<Refusal> for u32 {
    ghost from_gives = { λ refusal number. number ≡ refusal_number refusal };

    fn from(refusal: Refusal) -> u32 {
        match refusal {
            Refusal::Name => 1,
            Refusal::Length => 2,
            Refusal::Form => 3,
            Refusal::Year => 4,
            Refusal::Date => 5,
            Refusal::Span => 6,
            Refusal::Encoding => 9,
        }
    }
}

// The one number of an answer: its own, or the refusal's.
pub fn number_or_refusal(answer: Result<u32, Refusal>) -> u32
    ensures { result ≡ number_or_refusal answer }
{
    answer.unwrap_or_else(u32::from)
}

// The number of an answer that is refused, or 0 where it is not.
pub fn refusal_or_zero<T: Copy>(answer: Result<T, Refusal>) -> u32
    ensures { result ≡ refusal_or_zero answer }
{
    answer.err().map_or(0, u32::from)
}
